// Scales of costs: what a step costs, which of two costs is lower, and what two make together.
#![tactic(auto)]

pub mod least;
pub mod pair;
pub mod pair_of;
pub mod printed;
pub mod scale;
pub mod steps;
pub mod steps_then_points;

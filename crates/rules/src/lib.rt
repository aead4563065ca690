// Conflict rules: which moves of two trains may not be made in one step.
#![tactic(auto)]

pub mod clear_section;
pub mod following;
pub mod moves;
pub mod rule;

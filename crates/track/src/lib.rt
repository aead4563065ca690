#![tactic(auto)]

pub mod drawing;
pub mod foul;
pub mod layout;
pub mod link;
pub mod list;
pub mod refusal;
pub mod ways;

// What every search promises, whichever groups it takes.
#![tactic(auto)]

pub mod answer;
pub mod search;

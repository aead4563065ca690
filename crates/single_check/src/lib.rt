// The single-train check: a search over another one, which first looks whether each train alone can reach its goal.
#![tactic(auto)]

pub mod as_search;
pub mod check;
pub mod make;
pub mod reach;

// The grouping: a search over any other search. Each train is first a group of its own; groups that conflict are joined and searched below.
#![tactic(auto)]

pub mod as_search;
pub mod grouping;
mod joining;
pub mod plan;

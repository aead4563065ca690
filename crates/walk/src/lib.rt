// The walk search: it tries the sheets of a group in their order, and keeps the first of the least.
#![tactic(auto)]

pub mod as_search;
pub mod explore;
pub mod make;
pub mod spot;
pub mod walk;

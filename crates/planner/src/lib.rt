// A planner answers calls about one layout: trains are entered and withdrawn, sections are closed and opened again, and sheets are planned.
// Every reply is kept for the book of the calls before it.
#![tactic(auto)]

pub mod note;
pub mod order;
pub mod planner;
pub mod refusals;

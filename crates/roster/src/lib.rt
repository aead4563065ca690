// The trains to be planned, and the sections closed to them.
#![tactic(auto)]

pub mod roster;
pub mod train;

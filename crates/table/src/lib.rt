// The table search: it works out the least cost of what is still to come, for each joint position of a group and each number of steps left,
// and reads the best sheet off these costs.
#![tactic(auto)]

pub mod ahead;
pub mod as_search;
pub mod candidates;
pub mod fill;
pub mod filled;
pub mod known;
pub mod pick;
pub mod positions;
pub mod read;
pub mod step;
pub mod table;

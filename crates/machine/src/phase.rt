use crate::desk::Desk;
use planner::planner::Planner;

// Before the finish a throat is drawn, after it trains are planned.
#[derive(Drop)]
pub enum Phase<R, S, Q> {
    Drawing(Desk<R, S, Q>),
    Planning(Planner<R, S, Q>),
}

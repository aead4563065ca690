use crate::below::Below;
use crate::book::Book;
use crate::problem::Cost;
use crate::throat::Throat;
use planner::planner::Planner;

mod calls;
mod pick;
mod wanted;

// A planner on a throat, with the book of its calls that the trials keep, and what its grouping asks below.
#[derive(Drop)]
pub struct Desk<R, S, Q> {
    pub planner: Planner<R, S, Q>,
    pub scale: S,
    pub below: Below,
    pub throat: Throat,
    pub book: Book,
}

// A reply of a planner, as the trials compare it.
#[derive(Clone, Copy, PartialEq, Eq)]
pub enum Reply {
    Declined(u8),
    Accepted,
    // with the section that the note names
    Noted(u8),
    // how many sections, and the lowest
    AreClosed(u32, Option<u8>),
    Planned(Cost, usize),
}

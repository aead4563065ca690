use crate::note::Note;
use roster::train::Train;

// A call to a planner.
// It and the reply have no derives: a note can be neither copied nor let go, and a test of equality of notes would say nothing.
pub enum Order {
    Enter(Train),
    // the train with this number
    Withdraw(u16),
    // close a section
    Possess(u8),
    // open the section of the note again
    GiveUp(Note),
    AskClosed,
    // in so many steps
    Plan(usize),
}

// What a planner replies to a call that it does not decline.
pub enum Told<C> {
    Accepted,
    // the section is closed; the note has to be given up
    Noted(Note),
    // how many sections are closed, and the lowest of them
    AreClosed(u32, Option<u8>),
    // the cost of the sheet, which is written, and the number of groups that were planned apart
    Planned(C, usize),
}

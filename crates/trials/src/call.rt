use roster::train::Train;

// A call to a planner, as the trials have it.
#[derive(Clone, Copy)]
pub enum Call {
    Enter(Train),
    Withdraw(u16),
    Possess(u8),
    // by the section that the note names
    GiveUp(u8),
    AskClosed,
    Plan { steps: usize, cells: usize },
}

use crate::in_words::InWords;
use crate::office::Office;
use planner::order::Order;
use std::io;

// The calls stand one after the other: an order may hold a note, and so no array of them can be let go where a call fails.
impl<S: InWords> Office<'_, S, S::Cost> {
    fn morning(&mut self) -> io::Result<()> {
        self.make(Order::Plan(4))?;
        self.enter(12, 0, 7)?;
        self.enter(27, 4, 3)?;
        self.enter(12, 1, 2)?;
        self.make(Order::Plan(17))?;
        self.make(Order::Plan(3))?;
        self.make(Order::Plan(4))
    }

    // While section 2 is closed.
    fn midday(&mut self) -> io::Result<()> {
        self.make(Order::Possess(2))?;
        self.enter(31, 2, 9)?;
        self.enter(31, 7, 9)?;
        self.make(Order::AskClosed)?;
        self.make(Order::Possess(9))?;
        self.make(Order::Plan(4))?;
        self.make(Order::Plan(6))?;
        self.make(Order::Withdraw(12))?;
        self.make(Order::Withdraw(12))
    }

    fn evening(&mut self) -> io::Result<()> {
        self.make(Order::AskClosed)?;
        self.make(Order::Plan(6))?;
        self.enter(44, 0, 7)?;
        self.make(Order::Plan(16))
    }

    pub fn shift(&mut self) -> io::Result<()> {
        self.morning()?;
        let (note, said) = self.call(Order::Possess(2));
        match note {
            None => said?,
            Some(note) => {
                let worked = self.midday();
                let given_up = self.make(Order::GiveUp(note));
                said.and(worked).and(given_up)?;
            }
        }
        self.evening()
    }
}

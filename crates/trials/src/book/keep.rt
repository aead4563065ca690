use crate::book::Book;
use crate::call::Call;
use roster::roster::Roster;
use roster::train::Train;
use std::alloc::{AllocError, Global};
use track::layout::Layout;
use track::refusal::Refusal;

impl Book {
    pub fn new(alloc: Global) -> Book {
        Book {
            trains: Vec::new(alloc),
            closed: Vec::new(alloc),
        }
    }

    // The roster of this book.
    pub fn roster(&self, layout: &Layout) -> Result<Roster, Refusal> {
        let mut roster = Roster::new();
        for train in &self.trains {
            roster.enter(layout, *train)?;
        }
        for section in &self.closed {
            roster.close(layout, *section)?;
        }
        Ok(roster)
    }

    pub fn is_closed(&self, section: u8) -> bool {
        self.closed.iter().any(|closed| *closed == section)
    }

    fn has_number(&self, number: u16) -> bool {
        self.trains.iter().any(|train| train.number == number)
    }

    fn has_start(&self, section: u8) -> bool {
        self.trains.iter().any(|train| train.start == section)
    }

    fn has_goal(&self, section: u8) -> bool {
        self.trains.iter().any(|train| train.goal == section)
    }

    // The number of the first condition that declines a call on a throat of so many sections, if one does.
    pub fn declines(&self, sections: u8, call: Call) -> Option<u8> {
        match call {
            Call::Enter(
                Train {
                    number,
                    start,
                    goal,
                },
            ) => first_met(&[
                (1, start >= sections || goal >= sections),
                (11, number == 0 || number > 9999),
                (12, self.has_number(number)),
                (13, self.is_closed(start) || self.is_closed(goal)),
                (14, self.has_start(start)),
                (15, self.has_goal(goal)),
                (16, self.trains.len() >= 8),
            ]),
            Call::Withdraw(number) => first_met(&[
                (11, number == 0 || number > 9999),
                (17, !self.has_number(number)),
            ]),
            Call::Possess(section) => first_met(&[
                (1, section >= sections),
                (18, self.is_closed(section)),
                (19, self.has_start(section) || self.has_goal(section)),
            ]),
            Call::GiveUp(section) => first_met(&[
                (1, section >= sections),
                (20, !self.is_closed(section)),
            ]),
            Call::AskClosed => None,
            Call::Plan { steps, cells } => first_met(&[
                (21, steps == 0 || steps > 16),
                (22, self.trains.is_empty()),
                (
                    23,
                    cells < usize::from(sections).saturating_mul(steps.saturating_add(1)),
                ),
            ]),
        }
    }

    // Takes a call that is not declined into the book.
    pub fn take(&mut self, call: Call) -> Result<(), AllocError> {
        match call {
            Call::Enter(train) => {
                let place = self
                    .trains
                    .iter()
                    .take_while(|other| other.number < train.number)
                    .count();
                self.trains.insert(place, train)?;
            }
            Call::Withdraw(number) => self.trains.retain(|train| train.number != number),
            Call::Possess(section) => self.closed.push(section)?,
            Call::GiveUp(section) => self.closed.retain(|closed| *closed != section),
            Call::AskClosed | Call::Plan { .. } => {}
        }
        Ok(())
    }
}

// The number of the first condition that is met.
fn first_met(conditions: &[(u8, bool)]) -> Option<u8> {
    conditions
        .iter()
        .find(|(_, met)| *met)
        .map(|(number, _)| *number)
}

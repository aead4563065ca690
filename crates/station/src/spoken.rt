use planner::order::Order;
use roster::train::Train;
use std::fmt;

// A call, as the office says it.
#[derive(Clone, Copy)]
pub struct Spoken<'a>(pub &'a Order);

impl fmt::Display for Spoken<'_> {
    fn fmt<W: fmt::Write>(&self, f: &mut fmt::Formatter<W>) -> fmt::Result {
        match self.0 {
            Order::Enter(
                Train {
                    number,
                    start,
                    goal,
                },
            ) => write!(f, "enter train {number} from {start} to {goal}:"),
            Order::Withdraw(number) => write!(f, "withdraw train {number}:"),
            Order::Possess(section) => write!(f, "close section {section}:"),
            Order::GiveUp(note) => write!(f, "give up the note of section {}:", note.section()),
            Order::AskClosed => write!(f, "what is closed?"),
            Order::Plan(steps) => write!(f, "plan {steps} steps:"),
        }
    }
}

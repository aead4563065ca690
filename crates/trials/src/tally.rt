use crate::oracle::Outcome;
use search::answer::Unplanned;
use std::fmt;

// How many answers of a pile of layers agreed with the enumeration, and what there was to be told.
#[derive(Clone, Copy, Default)]
pub struct Tally {
    asked: u32,
    agreed: u32,
    sheets: u32,
    several: u32,
    none: u32,
    beyond: u32,
}

// Counts one more, if there is one.
pub fn count(counter: &mut u32, more: bool) {
    *counter = counter.saturating_add(u32::from(more));
}

impl Tally {
    pub fn all_agree(&self) -> bool {
        self.agreed == self.asked
    }

    pub fn count(&mut self, outcome: &Outcome, agrees: bool) {
        count(&mut self.asked, true);
        count(&mut self.agreed, agrees);
        match outcome {
            Ok((_, groups)) => {
                count(&mut self.sheets, true);
                count(&mut self.several, *groups > 1);
            }
            Err(Unplanned::NoSheet) => count(&mut self.none, true),
            Err(Unplanned::BeyondReach) => count(&mut self.beyond, true),
        }
    }
}

impl fmt::Display for Tally {
    fn fmt<W: fmt::Write>(&self, f: &mut fmt::Formatter<W>) -> fmt::Result {
        let Tally {
            asked,
            agreed,
            sheets,
            several,
            none,
            beyond,
        } = *self;
        write!(
            f,
            "{asked:6} {agreed:6} {sheets:6} {several:6} {none:6} {beyond:6}"
        )
    }
}

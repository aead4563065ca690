use crate::call::Call;
use crate::counted::{Counted, Ruled};
use crate::desk::{Desk, Reply};
use crate::known::Known;
use crate::problem::Problem;
use crate::question::{BEFORE, written};
use search::answer::Unplanned;
use sheets::sheet::Sheet;
use std::alloc::{AllocError, Global};

impl<R: Ruled, S: Counted, Q> Desk<R, S, Q> {
    // What a plan that the book does not decline is to be replied with, and what the sheet is to hold then.
    fn planned(
        &self,
        steps: usize,
        cells: usize,
        alloc: Global,
    ) -> Result<(Reply, Sheet), AllocError> {
        let problem = Problem {
            throat: &self.throat,
            book: &self.book,
            steps,
            clear: R::CLEAR,
            by_points: S::BY_POINTS,
        };
        let known = Known::of(problem, alloc)?;
        let trains = self.book.trains.len();
        let group = [0 < trains, 1 < trains, 2 < trains];
        Ok(match self.below.grouped(cells, &known, group) {
            Ok((best, groups)) => (
                Reply::Planned(best.cost, groups),
                written(&BEFORE, &best.plan, group, steps),
            ),
            Err(Unplanned::BeyondReach) => (Reply::Declined(24), BEFORE),
            Err(Unplanned::NoSheet) => (Reply::Declined(25), BEFORE),
        })
    }

    // What a call is to be replied with by the book and the enumeration, and what the sheet is to hold then.
    pub fn wanted(&self, call: Call, alloc: Global) -> Result<(Reply, Sheet), AllocError> {
        if let Some(number) = self.book.declines(self.throat.sections, call) {
            return Ok((Reply::Declined(number), BEFORE));
        }
        let reply = match call {
            Call::Enter(_) | Call::Withdraw(_) | Call::GiveUp(_) => Reply::Accepted,
            Call::Possess(section) => Reply::Noted(section),
            Call::AskClosed => {
                let closed = &self.book.closed;
                let count = closed
                    .iter()
                    .fold(0, |count: u32, _| count.saturating_add(1));
                Reply::AreClosed(count, closed.iter().min().copied())
            }
            Call::Plan { steps, cells } => return self.planned(steps, cells, alloc),
        };
        Ok((reply, BEFORE))
    }
}

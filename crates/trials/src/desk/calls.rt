use crate::call::Call;
use crate::calls::Calls;
use crate::counted::{Counted, Ruled};
use crate::desk::{Desk, Reply};
use crate::dice::Dice;
use crate::question::BEFORE;
use planner::note::Note;
use planner::order::{Order, Told};
use search::search::Search;
use std::alloc::{AllocError, Global};
use track::refusal::Refusal;

// The call as the planner takes it, with the note that is held if it gives one up. Nothing where no note is held for that.
fn order_of(call: Call, held: &mut Option<Note>) -> Option<Order> {
    match call {
        Call::Enter(train) => Some(Order::Enter(train)),
        Call::Withdraw(number) => Some(Order::Withdraw(number)),
        Call::Possess(section) => Some(Order::Possess(section)),
        Call::GiveUp(_) => held.take().map(Order::GiveUp),
        Call::AskClosed => Some(Order::AskClosed),
        Call::Plan { steps, .. } => Some(Order::Plan(steps)),
    }
}

// How many cells come with a call.
fn cells_of(call: Call) -> usize {
    match call {
        Call::Plan { cells, .. } => cells,
        _ => 0,
    }
}

impl<R: Ruled, S: Counted, Q: Search<S>> Desk<R, S, Q> {
    // Whether the planner has the trains and the closed sections of the book.
    fn holds_the_book(&self) -> bool {
        let roster = self.planner.roster();
        roster.trains() == self.book.trains.as_slice()
            && (0..32).all(|section| roster.is_closed(section) == self.book.is_closed(section))
    }

    // What was replied. A note is held; one that was held already is given up for it.
    fn heard(&mut self, told: Result<Told<S::Cost>, Refusal>, held: &mut Option<Note>) -> Reply {
        match told {
            Ok(Told::Accepted) => Reply::Accepted,
            Ok(Told::Noted(note)) => {
                let section = note.section();
                if let Some(older) = held.replace(note) {
                    let _ = self.planner.give_up(older);
                }
                Reply::Noted(section)
            }
            Ok(Told::AreClosed(count, lowest)) => Reply::AreClosed(count, lowest),
            Ok(Told::Planned(cost, groups)) => Reply::Planned(self.scale.counted(cost), groups),
            Err(refusal) => Reply::Declined(refusal.number()),
        }
    }

    // Makes any call, and tallies whether reply and sheet are as they are to be, and the planner then holds the book.
    pub fn call_next(
        &mut self,
        dice: &mut Dice,
        alloc: Global,
        held: &mut Option<Note>,
        calls: &mut Calls,
    ) -> Result<(), AllocError> {
        let call = self.pick(dice, held);
        let (wanted, after) = self.wanted(call, alloc)?;
        if self.book.declines(self.throat.sections, call).is_none() {
            self.book.take(call)?;
        }
        let mut cells = vec![in alloc; Some(self.scale.nothing()); cells_of(call)]?;
        if let Some(order) = order_of(call, held) {
            let mut sheet = BEFORE;
            let told = self.planner.answer(order, cells.as_mut_slice(), &mut sheet);
            let heard = self.heard(told, held);
            calls.count(
                wanted,
                heard == wanted && sheet == after && self.holds_the_book(),
            );
        }
        Ok(())
    }

    // Gives up a note that is still held, and tallies whether the reply is the book's.
    pub fn give_back(&mut self, held: Option<Note>, calls: &mut Calls) -> Result<(), AllocError> {
        let Some(note) = held else {
            return Ok(());
        };
        let call = Call::GiveUp(note.section());
        let wanted = match self.book.declines(self.throat.sections, call) {
            Some(number) => Reply::Declined(number),
            None => Reply::Accepted,
        };
        let heard = match self.planner.give_up(note) {
            Ok(()) => Reply::Accepted,
            Err(refusal) => Reply::Declined(refusal.number()),
        };
        if wanted == Reply::Accepted {
            self.book.take(call)?;
        }
        calls.count(wanted, heard == wanted && self.holds_the_book());
        Ok(())
    }
}

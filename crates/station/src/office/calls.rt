use crate::in_words::InWords;
use crate::office::Office;
use crate::row::Row;
use crate::spoken::Spoken;
use planner::note::Note;
use planner::order::{Order, Told};
use roster::train::Train;
use sheets::sheet::Sheet;
use std::io;

// How many times the sheet of a call has: of a plan one more than steps, of any other none. That 0 is a count: an `Option` would be no plainer,
// since only a plan that is told is shown.
fn times(order: &Order) -> usize {
    match order {
        // too many steps are asked for too, and declined
        Order::Plan(steps) => steps.saturating_add(1),
        _ => 0,
    }
}

impl<S: InWords> Office<'_, S, S::Cost> {
    fn show_closed(&self, count: u32, lowest: Option<u8>) -> io::Result<()> {
        match lowest {
            None => println!(self.rt; "nothing"),
            Some(section) => println!(self.rt; "{count}, the lowest is {section}"),
        }
    }

    fn show_plan(
        &self,
        cost: S::Cost,
        groups: usize,
        sheet: &Sheet,
        times: usize,
    ) -> io::Result<()> {
        self.scale.say(self.rt, cost)?;
        println!(self.rt; ", groups: {groups}")?;
        for (train, sections) in self.planner.roster().trains().iter().zip(&sheet.rows) {
            // `min` changes nothing, as a plan that is told has at most 16 steps; a proof of it here would make the line no plainer
            let row = Row {
                number: train.number,
                sections: &sections[..times.min(17)],
            };
            println!(self.rt; "{row}")?;
        }
        Ok(())
    }

    // Makes a call, and says what is asked and what is replied. Hands on the note, if one is given:
    // it stands beside the result, and not in it, since it is to be given up also where printing fails.
    pub fn call(&mut self, order: Order) -> (Option<Note>, io::Result<()>) {
        let mut sheet = Sheet::default();
        let times = times(&order);
        let asked = print!(self.rt; "{} ", Spoken(&order));
        let (note, replied) = match self.planner.answer(order, self.cells, &mut sheet) {
            Ok(Told::Accepted) => (None, println!(self.rt; "accepted")),
            Ok(Told::Noted(note)) => (Some(note), println!(self.rt; "accepted, with a note")),
            Ok(Told::AreClosed(count, lowest)) => (None, self.show_closed(count, lowest)),
            Ok(Told::Planned(cost, groups)) => (None, self.show_plan(cost, groups, &sheet, times)),
            Err(refusal) => {
                let number = refusal.number();
                (
                    None,
                    println!(self.rt; "declined with {number}, {refusal:?}"),
                )
            }
        };
        (note, asked.and(replied))
    }

    // A call that is to give no note; one that it gives is given up at once.
    pub fn make(&mut self, order: Order) -> io::Result<()> {
        let (note, said) = self.call(order);
        if let Some(note) = note {
            // its reply is let go: this planner gave the note just now, nothing but the note opens the section again, and so it is not declined
            let _ = self.planner.give_up(note);
        }
        said
    }

    // The three numbers as they are called: a `Train` at each call would be no plainer, as it takes five lines for one.
    pub fn enter(&mut self, number: u16, start: u8, goal: u8) -> io::Result<()> {
        self.make(Order::Enter(Train {
            number,
            start,
            goal,
        }))
    }
}

use crate::call::Call;
use crate::desk::Desk;
use crate::dice::Dice;
use crate::oracle::cells_for;
use planner::note::Note;
use roster::train::Train;

const NUMBERS: [u16; 8] = [0, 1, 2, 3, 4, 5, 9999, 10000];

const STEPS: [usize; 8] = [0, 1, 2, 3, 3, 4, 4, 17];

fn pick_plan(dice: &mut Dice, sections: u8) -> Call {
    let steps = STEPS[usize::from(dice.below(8))];
    let reach = 1 + usize::from(dice.below(3));
    let missing = usize::from(dice.below(2));
    // no plan of more steps than the enumeration can follow gets as far as the cells
    let cells = cells_for(sections, steps.min(4), reach).saturating_sub(missing);
    Call::Plan { steps, cells }
}

impl<R, S, Q> Desk<R, S, Q> {
    // Any call. A note that is held may be given up; where none is held, a section may be closed instead.
    pub fn pick(&self, dice: &mut Dice, held: &Option<Note>) -> Call {
        let sections = self.throat.sections;
        let number = NUMBERS[usize::from(dice.below(8))];
        let section = dice.below(sections.saturating_add(1));
        let goal = dice.below(sections.saturating_add(1));
        match dice.below(12) {
            // the enumeration has room for three trains
            0..=3 if self.book.trains.len() < 3 => Call::Enter(Train {
                number,
                start: section,
                goal,
            }),
            0..=4 => Call::Withdraw(number),
            5..=6 => match held {
                Some(note) => Call::GiveUp(note.section()),
                None => Call::Possess(section),
            },
            7 => Call::AskClosed,
            _ => pick_plan(dice, sections),
        }
    }
}

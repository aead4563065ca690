use crate::below::Below;
use crate::book::Book;
use crate::counted::{Counted, Ruled};
use crate::desk::{Desk, Reply};
use crate::dice::Dice;
use crate::questions::declined;
use crate::tally::count;
use crate::throat::Throat;
use planner::planner::Planner;
use rules::clear_section::ClearSection;
use rules::following::Following;
use scales::steps::Steps;
use scales::steps_then_points::StepsThenPoints;
use search::search::Search;
use single_check::check::Check;
use std::alloc::Global;
use table::table::Table;
use walk::walk::Walk;

mod tell;

// The lists of calls that were made, and how the calls were replied to.
#[derive(Clone, Copy)]
pub struct Calls {
    lists: u32,
    made: u32,
    agreed: u32,
    accepted: u32,
    noted: u32,
    asked: u32,
    planned: u32,
    // of the plans those of more than one group
    several: u32,
    // by the number
    declined: [u32; 31],
}

// A planner on a throat that the dice pick.
fn open<R: Ruled + Copy, S: Counted + Copy, Q: Search<S> + Drop>(
    dice: &mut Dice,
    alloc: Global,
    (rule, scale): (R, S),
    (search, below): (Q, Below),
) -> anyhow::Result<Desk<R, S, Q>> {
    let throat = Throat::pick(dice, alloc)?;
    let layout = throat.layout().map_err(declined)?;
    Ok(Desk {
        planner: Planner::new(layout, rule, scale, search),
        scale,
        below,
        throat,
        book: Book::new(alloc),
    })
}

impl Calls {
    pub fn none_yet() -> Calls {
        Calls {
            lists: 0,
            made: 0,
            agreed: 0,
            accepted: 0,
            noted: 0,
            asked: 0,
            planned: 0,
            several: 0,
            declined: [0; 31],
        }
    }

    // Counts a call by what it is to be replied with.
    pub fn count(&mut self, wanted: Reply, agrees: bool) {
        count(&mut self.made, true);
        count(&mut self.agreed, agrees);
        match wanted {
            Reply::Accepted => count(&mut self.accepted, true),
            Reply::Noted(_) => count(&mut self.noted, true),
            Reply::AreClosed(..) => count(&mut self.asked, true),
            Reply::Planned(_, groups) => {
                count(&mut self.planned, true);
                count(&mut self.several, groups > 1);
            }
            Reply::Declined(number) => {
                if let Some(counted) = self.declined.get_mut(usize::from(number)) {
                    count(counted, true);
                }
            }
        }
    }

    // Makes a list of calls at two planners. A note is given up at either of them, and in the end each is.
    fn list<R: Ruled + Copy, S: Counted + Copy, Q: Search<S> + Drop>(
        &mut self,
        dice: &mut Dice,
        alloc: Global,
        here: &mut Desk<R, S, Q>,
        there: &mut Desk<R, S, Q>,
    ) -> anyhow::Result<()> {
        count(&mut self.lists, true);
        let mut held = [None, None, None, None];
        // a note cannot be let go: so a want of memory ends the list only after all notes are given up
        let mut went = Ok(());
        for _ in 0..40 {
            if went.is_ok() {
                let desk = if dice.once_in(4) {
                    &mut *there
                } else {
                    &mut *here
                };
                let note = &mut held[usize::from(dice.below(4))];
                went = desk.call_next(dice, alloc, note, self);
            }
        }
        let [a, b, c, d] = held;
        let first = here.give_back(a, self).and(here.give_back(b, self));
        let last = here.give_back(c, self).and(here.give_back(d, self));
        went?;
        first?;
        last?;
        Ok(())
    }

    fn list_under<R: Ruled + Copy, S: Counted + Copy, Q: Search<S> + Drop>(
        &mut self,
        dice: &mut Dice,
        alloc: Global,
        terms: (R, S),
        here: (Q, Below),
        there: (Q, Below),
    ) -> anyhow::Result<()> {
        let mut here = open(dice, alloc, terms, here)?;
        let mut there = open(dice, alloc, terms, there)?;
        self.list(dice, alloc, &mut here, &mut there)
    }

    // Makes a list of calls under any rule and scale.
    pub fn list_next(&mut self, dice: &mut Dice, alloc: Global) -> anyhow::Result<()> {
        let most = 1 + usize::from(dice.below(3));
        let walk = || Walk::new(most).map_err(declined);
        match dice.below(4) {
            0 => self.list_under(
                dice,
                alloc,
                (Following, Steps),
                (walk()?, Below::Walk(most)),
                (walk()?, Below::Walk(most)),
            ),
            1 => self.list_under(
                dice,
                alloc,
                (ClearSection, Steps),
                (Check::over(Table::new(alloc)?), Below::CheckOverTable),
                (Check::over(Table::new(alloc)?), Below::CheckOverTable),
            ),
            2 => self.list_under(
                dice,
                alloc,
                (Following, StepsThenPoints),
                (Table::new(alloc)?, Below::Table),
                (Table::new(alloc)?, Below::Table),
            ),
            _ => self.list_under(
                dice,
                alloc,
                (ClearSection, StepsThenPoints),
                (Check::over(Table::new(alloc)?), Below::CheckOverTable),
                (Check::over(Table::new(alloc)?), Below::CheckOverTable),
            ),
        }
    }
}

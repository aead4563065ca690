use crate::counted::Counted;
use crate::known::Known;
use crate::oracle::course::OfGrouping;
use crate::oracle::{Base, OfCheck, Oracle, Outcome};
use crate::problem::{Marks, Plan};
use crate::tally::Tally;
use grouping::grouping::Grouping;
use rules::rule::Rule;
use search::answer::Unplanned;
use search::search::Search;
use sheets::asked::Asked;
use sheets::sheet::Sheet;
use single_check::check::Check;
use std::alloc::Global;

// A sheet with a number in each place that no section has.
pub const BEFORE: Sheet = Sheet {
    rows: [[99; 17]; 8],
};

// The sheet, after the places of a plan were written for the marked trains in so many steps.
pub fn written(before: &Sheet, plan: &Plan, group: Marks, steps: usize) -> Sheet {
    let mut sheet = *before;
    for (row, marked) in group.iter().enumerate() {
        if *marked {
            for (t, places) in plan.places.iter().enumerate() {
                if t <= steps {
                    sheet.rows[row][t] = places[row];
                }
            }
        }
    }
    sheet
}

// A question, with what is known of it by the enumeration.
#[derive(Drop)]
pub struct Question<'a, 'b, R, S> {
    pub asked: Asked<'a, R, S>,
    pub known: Known<'b>,
    pub group: Marks,
}

impl<R: Rule, S: Counted> Question<'_, '_, R, S> {
    // What a sheet is to hold after the answer.
    fn after(&self, outcome: &Outcome) -> Sheet {
        match outcome {
            Ok((best, _)) => written(&BEFORE, &best.plan, self.group, self.known.problem.steps),
            Err(_) => BEFORE,
        }
    }

    // Whether an end of the course is also right for all its trains together.
    fn confirms(&self, outcome: &Outcome) -> bool {
        match (outcome, self.known.best(self.group)) {
            (Ok((told, _)), Some(best)) => told.cost == best.cost && told.plan == best.plan,
            (Err(_), None) => true,
            (Err(why), Some(_)) => *why == Unplanned::BeyondReach,
            (Ok(_), None) => false,
        }
    }

    // Whether a search tells the outcome, and leaves the sheet that belongs to it.
    fn is_told<Q: Search<S>>(
        &self,
        search: &mut Q,
        outcome: &Outcome,
        cells: &mut [Option<S::Cost>],
    ) -> bool {
        let mut sheet = BEFORE;
        let told = match (search.search(&self.asked, cells, &mut sheet), outcome) {
            (Ok(cost), Ok((best, _))) => self.asked.scale.counted(cost) == best.cost,
            (Err(why), Err(wanted)) => why == *wanted,
            _ => false,
        };
        told && sheet == self.after(outcome)
    }

    // Whether a grouping plans the outcome, with the number of groups, and leaves the sheet that belongs to it.
    fn is_planned<Q: Search<S>>(
        &self,
        grouping: &mut Grouping<Q>,
        outcome: &Outcome,
        cells: &mut [Option<S::Cost>],
    ) -> bool {
        let mut sheet = BEFORE;
        let told = match (grouping.plan(&self.asked, cells, &mut sheet), outcome) {
            (Ok((cost, count)), Ok((best, groups))) => {
                self.asked.scale.counted(cost) == best.cost && count == *groups
            }
            (Err(why), Err(wanted)) => why == *wanted,
            _ => false,
        };
        told && sheet == self.after(outcome)
    }

    // Asks a search, and tallies whether it tells what its oracle foretells.
    fn ask<Q: Search<S>, O: Oracle + Drop>(
        &self,
        search: &mut Q,
        oracle: O,
        cells: &mut [Option<S::Cost>],
        tally: &mut Tally,
    ) {
        let outcome = oracle.outcome(&self.known, self.group);
        let told = self.is_told(search, &outcome, cells);
        tally.count(&outcome, told && self.confirms(&outcome));
    }

    // Asks a grouping, first as a search and then for its plan.
    fn plan<Q: Search<S>, O: Oracle + Drop>(
        &self,
        grouping: &mut Grouping<Q>,
        oracle: O,
        cells: &mut [Option<S::Cost>],
        tally: &mut Tally,
    ) {
        let outcome = oracle.outcome(&self.known, self.group);
        let told = self.is_told(grouping, &outcome, cells);
        let planned = self.is_planned(grouping, &outcome, cells);
        tally.count(&outcome, told && planned && self.confirms(&outcome));
    }

    // Asks a search, and each pile of up to two layers over it, in the order in which they are told.
    pub fn ask_piles<Q: Search<S> + Drop, O: Base<Q> + Copy>(
        &self,
        base: O,
        alloc: Global,
        cells: &mut [Option<S::Cost>],
        tallies: &mut [Tally; 7],
    ) -> anyhow::Result<()> {
        let check = OfCheck(base);
        let groups = OfGrouping(base);
        self.ask(&mut base.make(alloc)?, base, cells, &mut tallies[0]);
        let mut pile = Check::over(base.make(alloc)?);
        self.ask(&mut pile, check, cells, &mut tallies[1]);
        let mut pile = Check::over(Check::over(base.make(alloc)?));
        self.ask(&mut pile, OfCheck(check), cells, &mut tallies[2]);
        let mut pile = Check::over(Grouping::over(base.make(alloc)?));
        self.ask(&mut pile, OfCheck(groups), cells, &mut tallies[3]);
        let mut pile = Grouping::over(base.make(alloc)?);
        self.plan(&mut pile, groups, cells, &mut tallies[4]);
        let mut pile = Grouping::over(Check::over(base.make(alloc)?));
        self.plan(&mut pile, OfGrouping(check), cells, &mut tallies[5]);
        let mut pile = Grouping::over(Grouping::over(base.make(alloc)?));
        self.plan(&mut pile, OfGrouping(groups), cells, &mut tallies[6]);
        Ok(())
    }
}

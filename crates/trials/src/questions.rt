use crate::book::Book;
use crate::counted::{Counted, Ruled};
use crate::dice::Dice;
use crate::known::{Known, how_many};
use crate::oracle::{OfTable, OfWalk, cells_for};
use crate::problem::{Marks, Problem};
use crate::question::Question;
use crate::tally::{Tally, count};
use crate::throat::Throat;
use anyhow::anyhow;
use rules::clear_section::ClearSection;
use rules::following::Following;
use rules::rule::Rule;
use scales::steps::Steps;
use scales::steps_then_points::StepsThenPoints;
use sheets::asked::Asked;
use sheets::pose::ask;
use std::alloc::Global;
use table::table::Table;
use track::refusal::Refusal;

mod tell;

// What was asked, of which kinds, and what the piles over each search answered.
#[derive(Clone, Copy, Default)]
pub struct Questions {
    asked: u32,
    // of so many trains, from one on
    trains: [u32; 3],
    // in so many steps, from one on
    steps: [u32; 4],
    none: u32,
    ties: u32,
    walk: [Tally; 7],
    table: [Tally; 7],
}

// A question as the dice picked it, and how far the searches reach.
#[derive(Clone, Copy)]
struct Picked<'a> {
    throat: &'a Throat,
    book: &'a Book,
    group: Marks,
    steps: usize,
    most: usize,
    cells: usize,
}

// Never the case: what the dice pick is not declined.
pub fn declined(refusal: Refusal) -> anyhow::Error {
    anyhow!("declined: {refusal:?}")
}

// Mostly all trains of the book.
fn pick_group(dice: &mut Dice, trains: usize) -> Marks {
    let all = [0 < trains, 1 < trains, 2 < trains];
    let some = all.map(|marked| marked && dice.once_in(2));
    if how_many(some) == 0 || !dice.once_in(4) {
        all
    } else {
        some
    }
}

impl Questions {
    // Picks a question, and asks it.
    pub fn ask_next(&mut self, dice: &mut Dice, alloc: Global) -> anyhow::Result<()> {
        let throat = Throat::pick(dice, alloc)?;
        let book = Book::pick(dice, alloc, throat.sections)?;
        let steps = 1 + usize::from(dice.below(4));
        let group = pick_group(dice, book.trains.len());
        let reach = 1 + usize::from(dice.below(3));
        let missing = usize::from(dice.below(2));
        let picked = Picked {
            throat: &throat,
            book: &book,
            group,
            steps,
            most: 1 + usize::from(dice.below(3)),
            cells: cells_for(throat.sections, steps, reach).saturating_sub(missing),
        };
        match dice.below(4) {
            0 => self.put(picked, Following, Steps, alloc),
            1 => self.put(picked, ClearSection, Steps, alloc),
            2 => self.put(picked, Following, StepsThenPoints, alloc),
            _ => self.put(picked, ClearSection, StepsThenPoints, alloc),
        }
    }

    // Puts a question to the piles over both searches.
    fn put<R: Ruled + Copy, S: Counted + Copy>(
        &mut self,
        picked: Picked,
        rule: R,
        scale: S,
        alloc: Global,
    ) -> anyhow::Result<()> {
        let problem = Problem {
            throat: picked.throat,
            book: picked.book,
            steps: picked.steps,
            clear: R::CLEAR,
            by_points: S::BY_POINTS,
        };
        let known = Known::of(problem, alloc)?;
        // what the cells hold is to make no difference
        let mut cells = vec![in alloc; Some(scale.nothing()); picked.cells]?;
        self.count_kind(&known, picked.group);
        let layout = picked.throat.layout().map_err(declined)?;
        let roster = picked.book.roster(&layout).map_err(declined)?;
        let [a, b, c] = picked.group;
        let group = [a, b, c, false, false, false, false, false];
        let posed = ask(&layout, &roster, group, picked.steps).map_err(declined)?;
        let asked = Asked {
            rule: &rule,
            scale: &scale,
            question: &posed,
        };
        let question = Question {
            asked,
            known,
            group: picked.group,
        };
        self.ask_both(&question, picked, alloc, cells.as_mut_slice())
    }

    // Asks the piles over both searches.
    fn ask_both<R: Rule, S: Counted>(
        &mut self,
        question: &Question<R, S>,
        picked: Picked,
        alloc: Global,
        cells: &mut [Option<S::Cost>],
    ) -> anyhow::Result<()> {
        let walk = OfWalk { most: picked.most };
        let table = OfTable {
            cells: picked.cells,
        };
        question.ask_piles(walk, alloc, cells, &mut self.walk)?;
        question.ask_piles::<Table<S::Cost>, OfTable>(table, alloc, cells, &mut self.table)
    }

    // Counts a question by its kind.
    fn count_kind(&mut self, known: &Known, group: Marks) {
        count(&mut self.asked, true);
        let trains = how_many(group);
        for (counted, before) in self.trains.iter_mut().zip(0..) {
            count(counted, trains == before + 1);
        }
        for (counted, before) in self.steps.iter_mut().zip(0..) {
            count(counted, known.problem.steps == before + 1);
        }
        match known.best(group) {
            None => count(&mut self.none, true),
            Some(best) => count(&mut self.ties, best.equals > 1),
        }
    }
}

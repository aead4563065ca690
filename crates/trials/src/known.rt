use crate::problem::{Best, Marks, Problem};
use std::alloc::{AllocError, Global};

// A problem, with the best sheet of each group of its trains by the enumeration.
#[derive(Clone, Copy)]
pub struct Known<'a> {
    pub problem: Problem<'a>,
    bests: [Option<Best>; 8],
}

// The place of a group in the list of all groups.
fn place_of(group: Marks) -> usize {
    usize::from(group[0]) + 2 * usize::from(group[1]) + 4 * usize::from(group[2])
}

impl<'a> Known<'a> {
    pub fn of(problem: Problem<'a>, alloc: Global) -> Result<Known<'a>, AllocError> {
        let mut bests = [None; 8];
        for (place, best) in bests.iter_mut().enumerate() {
            let group = [place % 2 == 1, place / 2 % 2 == 1, place / 4 == 1];
            // a group with a row that no train has is not asked for
            if group
                .iter()
                .skip(problem.book.trains.len())
                .all(|marked| !*marked)
            {
                *best = problem.best(alloc, group)?;
            }
        }
        Ok(Known { problem, bests })
    }

    // The best sheet of a group, if it has a lawful one.
    pub fn best(&self, group: Marks) -> Option<Best> {
        self.bests.get(place_of(group)).copied().flatten()
    }
}

// The group of one train.
pub fn alone(row: usize) -> Marks {
    [row == 0, row == 1, row == 2]
}

// How many trains are marked.
pub fn how_many(group: Marks) -> usize {
    group.iter().filter(|marked| **marked).count()
}

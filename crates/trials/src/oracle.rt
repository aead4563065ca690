use crate::known::{Known, alone, how_many};
use crate::problem::{Best, Marks};
use crate::questions::declined;
use search::answer::Unplanned;
use std::alloc::Global;
use table::table::Table;
use walk::walk::Walk;

pub mod course;

// What is to be told of a group: the best sheet with the number of groups that it is made of, or why there is none.
pub type Outcome = Result<(Best, usize), Unplanned>;

// What a search or a layer is to tell, by the enumeration.
pub trait Oracle {
    fn outcome(&self, known: &Known, group: Marks) -> Outcome;
}

// An oracle of a search of single groups, with that search.
pub trait Base<Q>: Oracle {
    fn make(&self, alloc: Global) -> anyhow::Result<Q>;
}

// The best sheet of a group that is taken.
fn taken(known: &Known, group: Marks) -> Outcome {
    match known.best(group) {
        Some(best) => Ok((best, 1)),
        None => Err(Unplanned::NoSheet),
    }
}

// Of the walk for so many trains.
#[derive(Clone, Copy)]
pub struct OfWalk {
    pub most: usize,
}

impl Oracle for OfWalk {
    fn outcome(&self, known: &Known, group: Marks) -> Outcome {
        if how_many(group) > self.most {
            return Err(Unplanned::BeyondReach);
        }
        taken(known, group)
    }
}

impl Base<Walk> for OfWalk {
    // it asks for no memory
    fn make(&self, _alloc: Global) -> anyhow::Result<Walk> {
        Walk::new(self.most).map_err(declined)
    }
}

// Of the table with so many cells.
#[derive(Clone, Copy)]
pub struct OfTable {
    pub cells: usize,
}

// A cell for each time and each joint position of so many trains.
pub fn cells_for(sections: u8, steps: usize, trains: usize) -> usize {
    let mut cells = steps.saturating_add(1);
    for _ in 0..trains {
        cells = cells.saturating_mul(usize::from(sections));
    }
    cells
}

impl Oracle for OfTable {
    fn outcome(&self, known: &Known, group: Marks) -> Outcome {
        let problem = known.problem;
        if self.cells < cells_for(problem.throat.sections, problem.steps, how_many(group)) {
            return Err(Unplanned::BeyondReach);
        }
        taken(known, group)
    }
}

impl<C: Copy> Base<Table<C>> for OfTable {
    fn make(&self, alloc: Global) -> anyhow::Result<Table<C>> {
        Ok(Table::new(alloc)?)
    }
}

// Of the check over what has this oracle.
#[derive(Clone, Copy)]
pub struct OfCheck<O>(pub O);

impl<O: Oracle> Oracle for OfCheck<O> {
    fn outcome(&self, known: &Known, group: Marks) -> Outcome {
        if (0..3).any(|row| group[row] && known.best(alone(row)).is_none()) {
            return Err(Unplanned::NoSheet);
        }
        self.0.outcome(known, group)
    }
}

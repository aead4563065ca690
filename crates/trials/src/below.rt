use crate::known::Known;
use crate::oracle::course::OfGrouping;
use crate::oracle::{OfCheck, OfTable, OfWalk, Oracle, Outcome};
use crate::problem::Marks;

// What a planner's grouping asks below.
#[derive(Clone, Copy)]
pub enum Below {
    // the walk for so many trains
    Walk(usize),
    Table,
    CheckOverTable,
}

impl Below {
    // What the grouping over it is to tell, with so many cells.
    pub fn grouped(self, cells: usize, known: &Known, group: Marks) -> Outcome {
        let table = OfTable { cells };
        match self {
            Below::Walk(most) => OfGrouping(OfWalk { most }).outcome(known, group),
            Below::Table => OfGrouping(table).outcome(known, group),
            Below::CheckOverTable => OfGrouping(OfCheck(table)).outcome(known, group),
        }
    }
}

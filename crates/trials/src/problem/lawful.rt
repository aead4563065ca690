ghost use Rattle.std.specs.Prelude.{◌<◌};

use crate::problem::{Marks, Plan, Problem, Way};
use roster::train::Train;
use std::alloc::{AllocError, Global};

impl Plan {
    // All places 0: nothing is planned yet.
    pub const BLANK: Plan = Plan {
        places: [[0; 3]; 5],
    };

    // Where a train stands at a time, and then at the next.
    pub fn step(&self, row: usize, t: usize) -> (u8, u8)
        requires a_row { row < 3 }
        requires a_step { t < 4 }
    {
        (self.places[t][row], self.places[t + 1][row])
    }

    // The sheet with this way of a train in it.
    fn with(&self, row: usize, way: Way) -> Plan
        requires { row < 3 }
    {
        let mut places = self.places;
        for (place, section) in places.iter_mut().zip(&way) {
            place[row] = *section;
        }
        Plan { places }
    }
}

impl Problem<'_> {
    // The ways, each with every move that may follow at the time t.
    fn longer(&self, alloc: Global, ways: &Vec<Way>, t: usize) -> Result<Vec<Way>, AllocError>
        requires { t < 4 }
    {
        let mut all = Vec::new(alloc);
        for way in ways {
            for section in 0..self.throat.sections {
                if self.may_go(way[t], section) {
                    let mut next = *way;
                    next[t + 1] = section;
                    all.push(next)?;
                }
            }
        }
        Ok(all)
    }

    // All ways from a train's start to its goal.
    fn ways(&self, alloc: Global, train: Train) -> Result<Vec<Way>, AllocError> {
        let last = self.steps.min(4);
        let mut ways = vec![in alloc; [train.start; 5]]?;
        for t in 0..last {
            ways = self.longer(alloc, &ways, t)?;
        }
        ways.retain(|way| way[last] == train.goal);
        Ok(ways)
    }

    // Whether the trains of two rows conflict in some step.
    fn clash(&self, plan: &Plan, row: usize, other: usize) -> bool
        requires a_row { row < 3 }
        requires another_row { other < 3 }
    {
        (0..self.steps.min(4)).any(|t| self.conflict(plan.step(row, t), plan.step(other, t)))
    }

    // The sheets, each with every way of one more train that conflicts with none before it.
    fn wider(
        &self,
        alloc: Global,
        sheets: &Vec<Plan>,
        group: Marks,
        row: usize,
        ways: &Vec<Way>,
    ) -> Result<Vec<Plan>, AllocError>
        requires { row < 3 }
    {
        let mut all = Vec::new(alloc);
        for sheet in sheets {
            for way in ways {
                let next = sheet.with(row, *way);
                if !(0..row).any(|other| group[other] && self.clash(&next, row, other)) {
                    all.push(next)?;
                }
            }
        }
        Ok(all)
    }

    // All lawful sheets of the marked trains.
    pub fn lawful(&self, alloc: Global, group: Marks) -> Result<Vec<Plan>, AllocError> {
        let mut sheets = vec![in alloc; Plan::BLANK]?;
        for (row, train) in self.book.trains.iter().take(3).enumerate() {
            if group[row] {
                let ways = self.ways(alloc, *train)?;
                sheets = self.wider(alloc, &sheets, group, row, &ways)?;
            }
        }
        Ok(sheets)
    }
}

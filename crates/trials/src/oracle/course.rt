ghost use Rattle.std.specs.Prelude.{◌<◌};

use crate::known::Known;
use crate::oracle::{Oracle, Outcome};
use crate::problem::{Best, Marks, Plan};
use search::answer::Unplanned;

// Of the grouping over what has this oracle.
#[derive(Clone, Copy)]
pub struct OfGrouping<O>(pub O);

// How far the course of the grouping has come: the part that each train is in, and where the trains stand.
#[derive(Drop)]
struct Course<'a> {
    known: &'a Known<'a>,
    group: Marks,
    parts: [usize; 3],
    plan: Plan,
}

impl Course<'_> {
    // The trains of the part of a row.
    fn part(&self, row: usize) -> Marks
        requires { row < 3 }
    {
        let part = self.parts[row];
        [
            self.group[0] && self.parts[0] == part,
            self.group[1] && self.parts[1] == part,
            self.group[2] && self.parts[2] == part,
        ]
    }

    // Asks for the part of a row, and puts its trains where its best sheet has them.
    fn ask<O: Oracle>(&mut self, below: &O, row: usize) -> Outcome
        requires { row < 3 }
    {
        let part = self.part(row);
        let (best, groups) = below.outcome(self.known, part)?;
        for (places, new) in self.plan.places.iter_mut().zip(&best.plan.places) {
            for (row, marked) in part.iter().enumerate() {
                if *marked {
                    places[row] = new[row];
                }
            }
        }
        Ok((best, groups))
    }

    // Whether two trains of different parts conflict in a step.
    fn conflict(&self, t: usize, row: usize, other: usize) -> bool
        requires a_step { t < 4 }
        requires a_row { row < 3 }
        requires another_row { other < 3 }
    {
        self.group[row]
            && self.group[other]
            && self.parts[row] != self.parts[other]
            && self
                .known
                .problem
                .conflict(self.plan.step(row, t), self.plan.step(other, t))
    }

    // Joins the parts of the two trains that conflict first, and asks for them as one.
    fn join<O: Oracle>(&mut self, below: &O) -> Result<(), Unplanned> {
        for t in 0..self.known.problem.steps.min(4) {
            for (row, other) in [(0, 1), (0, 2), (1, 2)] {
                if self.conflict(t, row, other) {
                    let gone = self.parts[other];
                    let stays = self.parts[row];
                    for part in &mut self.parts {
                        if *part == gone {
                            *part = stays;
                        }
                    }
                    self.ask(below, row)?;
                    return Ok(());
                }
            }
        }
        Ok(())
    }

    // How many parts there are.
    fn count(&self) -> usize {
        (0..3)
            .filter(|part| (0..3).any(|row| self.group[row] && self.parts[row] == *part))
            .count()
    }
}

impl<O: Oracle> Oracle for OfGrouping<O> {
    fn outcome(&self, known: &Known, group: Marks) -> Outcome {
        let mut course = Course {
            known,
            group,
            parts: [0, 1, 2],
            plan: Plan::BLANK,
        };
        for (row, marked) in group.iter().enumerate() {
            if *marked {
                course.ask(&self.0, row)?;
            }
        }
        // three trains are joined at most twice
        course.join(&self.0)?;
        course.join(&self.0)?;
        let best = Best {
            cost: known.problem.cost(group, &course.plan),
            plan: course.plan,
            equals: 1,
        };
        Ok((best, course.count()))
    }
}

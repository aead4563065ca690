ghost use Rattle.std.specs.Prelude.{◌<◌};

use crate::problem::{Cost, Marks, Plan, Problem};

impl Problem<'_> {
    // What a move costs a train with this goal.
    fn price(&self, (from, to): (u8, u8), goal: u8) -> Cost {
        if from == goal && to == goal {
            return (0, 0);
        }
        match self.throat.way(from, to) {
            Some(points) if self.by_points => (1, u16::from(points)),
            _ => (1, 0),
        }
    }

    // What a sheet costs for the marked trains.
    pub fn cost(&self, group: Marks, plan: &Plan) -> Cost {
        let mut steps: u16 = 0;
        let mut points: u16 = 0;
        for (row, train) in self.book.trains.iter().take(3).enumerate() {
            if group[row] {
                for t in 0..self.steps.min(4) {
                    let more = self.price(plan.step(row, t), train.goal);
                    steps = steps.saturating_add(more.0);
                    points = points.saturating_add(more.1);
                }
            }
        }
        (steps, points)
    }
}

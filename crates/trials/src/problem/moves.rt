use crate::problem::Problem;

impl Problem<'_> {
    // Whether a train may stand or run so in a step.
    pub fn may_go(&self, from: u8, to: u8) -> bool {
        (from == to || self.throat.way(from, to).is_some()) && !self.book.is_closed(to)
    }

    // Whether two moves, from a to b and from c to d, may not be made in one step.
    pub fn conflict(&self, (a, b): (u8, u8), (c, d): (u8, u8)) -> bool {
        let meet = if self.clear {
            b == d || b == c || a == d
        } else {
            b == d || (a == d && b == c)
        };
        meet || (a != b && c != d && self.throat.crosses((a, b), (c, d)))
    }
}

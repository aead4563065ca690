use crate::problem::{Best, Marks, Problem};
use std::alloc::{AllocError, Global};

// The better of two: what costs less, and of equals the sheet that comes first.
fn better(one: Best, other: Best) -> Best {
    let equals = if one.cost == other.cost {
        one.equals.saturating_add(other.equals)
    } else if one.cost < other.cost {
        one.equals
    } else {
        other.equals
    };
    let first = if (one.cost, one.plan) <= (other.cost, other.plan) {
        one
    } else {
        other
    };
    Best { equals, ..first }
}

impl Problem<'_> {
    // The best of all lawful sheets of the marked trains, if there is one.
    pub fn best(&self, alloc: Global, group: Marks) -> Result<Option<Best>, AllocError> {
        let sheets = self.lawful(alloc, group)?;
        Ok(
            sheets
                .iter()
                .map(|plan| Best {
                    cost: self.cost(group, plan),
                    plan: *plan,
                    equals: 1,
                })
                .reduce(|one, other| better(one, other)),
        )
    }
}

use crate::dice::Dice;
use crate::throat::Throat;
use std::alloc::{AllocError, Global};
use track::foul::Foul;
use track::link::Link;

// The two in this order or in the other.
fn either_way(dice: &mut Dice, a: u8, b: u8) -> (u8, u8) {
    if dice.once_in(2) { (a, b) } else { (b, a) }
}

impl Throat {
    // A throat of 3 to 6 sections. Most of them are linked with an earlier one; then come up to 7 more links, and up to 2 fouls.
    pub fn pick(dice: &mut Dice, alloc: Global) -> Result<Throat, AllocError> {
        let mut throat = Throat {
            sections: 3 + dice.below(4),
            links: Vec::new(alloc),
            fouls: Vec::new(alloc),
        };
        for b in 1..throat.sections {
            let a = dice.below(b);
            if !dice.once_in(12) {
                throat.link(dice, a, b)?;
            }
        }
        for _ in 0..dice.below(8) {
            let a = dice.below(throat.sections);
            let b = dice.below(throat.sections);
            throat.link(dice, a, b)?;
        }
        for _ in 0..dice.below(3) {
            throat.foul(dice)?;
        }
        Ok(throat)
    }

    // Links two sections, unless they are linked or are one.
    fn link(&mut self, dice: &mut Dice, a: u8, b: u8) -> Result<(), AllocError> {
        if a != b && self.way(a, b).is_none() {
            let (a, b) = either_way(dice, a, b);
            let points = dice.below(3);
            self.links.push(Link { a, b, points })?;
        }
        Ok(())
    }

    // Any of the links, from either end.
    fn some_link(&self, dice: &mut Dice) -> Option<(u8, u8)> {
        // a throat has at most 12 links
        let count = self.links.len().min(255) as u8;
        let link = self.links.get(usize::from(dice.below(count)))?;
        Some(either_way(dice, link.a, link.b))
    }

    // Adds a foul of two links, unless they are one or foul already.
    fn foul(&mut self, dice: &mut Dice) -> Result<(), AllocError> {
        let (Some((a, b)), Some((c, d))) = (self.some_link(dice), self.some_link(dice)) else {
            return Ok(());
        };
        if (a, b) != (c, d) && (a, b) != (d, c) && !self.crosses((a, b), (c, d)) {
            self.fouls.push(Foul { a, b, c, d })?;
        }
        Ok(())
    }
}

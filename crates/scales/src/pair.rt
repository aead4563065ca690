ghost use Rattle.std.specs.Prelude.{Some};
ghost use Rattle.scales.specs.Words.{words_of};

use std::fmt;

// So many steps, over so many points. The pair with fewer steps is the lower; of two with as many, the one over fewer points.
#[derive(Clone, Copy, PartialEq, Eq, PartialOrd, Ord, Debug)]
pub struct Pair {
    pub steps: u16,
    pub points: u16,
}

impl fmt::Display for Pair {
    ghost output = { λ p. Some (words_of p) };

    fn fmt<W: fmt::Write>(&self, f: &mut fmt::Formatter<W>) -> fmt::Result {
        let Pair { steps, points } = *self;
        write!(f, "{steps} steps over {points} points")
    }
}

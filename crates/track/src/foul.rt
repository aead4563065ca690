ghost use Rattle.std.specs.Prelude.{◌≡◌};
ghost use Rattle.track.specs.Fouls.{crosses};

use crate::link::same_link;

// Two links that cross on the ground: a-b and c-d.
#[derive(Clone, Copy)]
pub struct Foul {
    pub a: u8,
    pub b: u8,
    pub c: u8,
    pub d: u8,
}

impl Foul {
    // Whether the two links are those of `other`, in either order, each from either end.
    pub(crate) fn is_of(&self, other: &Foul) -> bool
        ensures whether_it_is_of_these_links { result ≡ crosses self.now other.now.a other.now.b other.now.c other.now.d }
    {
        let (one, two) = ((self.a, self.b), (self.c, self.d));
        let (first, second) = ((other.a, other.b), (other.c, other.d));
        (same_link(one, first) && same_link(two, second))
            || (same_link(one, second) && same_link(two, first))
    }
}

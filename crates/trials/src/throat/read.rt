use crate::throat::Throat;

// Whether the two name the same link, from whichever end.
fn one_link(one: (u8, u8), other: (u8, u8)) -> bool {
    one == other || one == (other.1, other.0)
}

impl Throat {
    // The points of the link from `a` to `b`, if there is one.
    pub fn way(&self, a: u8, b: u8) -> Option<u8> {
        self.links
            .iter()
            .find(|link| one_link((link.a, link.b), (a, b)))
            .map(|link| link.points)
    }

    // Whether the two links cross on the ground.
    pub fn crosses(&self, one: (u8, u8), other: (u8, u8)) -> bool {
        self.fouls.iter().any(|foul| {
            let here = (foul.a, foul.b);
            let there = (foul.c, foul.d);
            (one_link(here, one) && one_link(there, other))
                || (one_link(here, other) && one_link(there, one))
        })
    }
}

ghost use Rattle.std.specs.Prelude.{◌≡◌};
ghost use Rattle.track.specs.Links.{same_link, joins, points_of};

// A link between two sections, with the number of points that are set on it.
#[derive(Clone, Copy)]
pub struct Link {
    pub a: u8,
    pub b: u8,
    pub points: u8,
}

impl Link {
    // Whether one gets from `a` to `b` over the link.
    pub(crate) fn runs_between(&self, a: u8, b: u8) -> bool
        ensures whether_the_link_leads_there { result ≡ joins self.now a b }
    {
        same_link((self.a, self.b), (a, b))
    }
}

// Whether the two pairs name the same two sections, from whichever end.
pub(crate) fn same_link(one: (u8, u8), other: (u8, u8)) -> bool
    ensures whether_they_name_one_link { result ≡ same_link one.0 one.1 other.0 other.1 }
{
    let (c, d) = other;
    one == (c, d) || one == (d, c)
}

// The points on the way from `a` to `b`, if a link leads there.
pub(crate) fn points_in(links: &[Link], a: u8, b: u8) -> Option<u8>
    ensures the_points_of_the_first_that_leads_there { result ≡ points_of links.now a b }
{
    links
        .iter()
        .find(|link| link.runs_between(a, b))
        .map(|link| link.points)
}

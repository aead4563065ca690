ghost use Rattle.std.specs.Prelude.{◌≡◌, map, take, slice_index_or};
ghost use Rattle.track.specs.Ways.{points_along, charted};
ghost use Rattle.track.specs.declared.ways.Ways.{Ways};

use crate::link::{Link, points_in};
use crate::ways::Ways;
use std::array;

impl Ways {
    // The ways from `a` over the links.
    pub(crate) fn over(links: &[Link], a: u8) -> Ways
        ensures the_ways_from_the_section { result.points ≡ points_along links.now a }
    {
        let points = points_from(links, a);
        let mut count = 0;
        let mut ends = [0; 32];
        for b in (0..32u8).filter(|b| way_to(&points, *b).is_some()) {
            ends[count] = b;
            count += 1;
        }
        Ways {
            points,
            count,
            ends,
        }
    }

    // The points on the way to `b`.
    pub(crate) fn points_to(&self, b: u8) -> Option<u8>
        ensures the_points_on_the_way { result ≡ slice_index_or self.now.points b None }
    {
        way_to(&self.points, b)
    }

    // The sections that a link leads to.
    pub(crate) fn ends(&self) -> &[u8]
        ensures the_sections_that_a_link_leads_to { result.now ≡ take self.now.count self.now.ends }
    {
        &self.ends[..self.count]
    }
}

// The points on the way to `b`, of those on the way to each section.
fn way_to(points: &[Option<u8>; 32], b: u8) -> Option<u8>
    ensures the_points_at_its_place { result ≡ slice_index_or points.now b None }
{
    *points.get(usize::from(b))?
}

// The points on the way from `a` to each section. `as` is proved to lose nothing here:
// `u8::try_from` with an `unwrap` would say no more.
fn points_from(links: &[Link], a: u8) -> [Option<u8>; 32]
    ensures the_points_to_each_section { result ≡ points_along links.now a }
{
    array::from_fn(|b| points_in(links, a, b as u8))
}

// The ways from each section over the links. `as` is proved to lose nothing here:
// `u8::try_from` with an `unwrap` would say no more.
pub(crate) fn chart(links: &[Link]) -> [Ways; 32]
    ensures the_ways_from_each_section { map (λ (w : Ways). w.points) result ≡ charted links.now }
{
    array::from_fn(|a| Ways::over(links, a as u8))
}

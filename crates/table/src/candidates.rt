ghost use Rattle.std.specs.Prelude.{◌<◌};
ghost use Rattle.track.specs.Layouts.{sections_of};
ghost use Rattle.table.specs.Candidates.{Candidates, reached};

use track::layout::Layout;
use track::list::FixedList;

// The sections in which a train from a may be after a step, in rising order: its neighbours below it, itself, and those above it.
pub(crate) fn candidates(layout: &Layout, a: u8) -> FixedList<u8, 33>
    requires { a < sections_of layout.now }
    ensures just_the_sections_in_reach_in_rising_order { Candidates (sections_of layout.now) (reached layout.now a) result }
{
    let neighbours = layout.neighbours(a);
    let (below, above) = neighbours.split_at(neighbours.partition_point(|x| *x < a));
    let mut tries = FixedList::new(0);
    tries.extend(below);
    tries.push(a);
    tries.extend(above);
    tries
}

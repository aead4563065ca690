ghost use Rattle.std.specs.Prelude.{◌≡◌, true};
ghost use Rattle.track.specs.Layouts.{sections_of};
ghost use Rattle.roster.specs.Trains.{on_layout};
ghost use Rattle.roster.specs.Model.{held, seen};
ghost use Rattle.planner.specs.Inside.{ClosedInside};

use grouping::grouping::Grouping;
use roster::roster::Roster;
use track::layout::Layout;

pub mod answer;
pub mod calls;
pub mod lookup;
pub mod make;
pub mod plan;

// Plans the trains of its roster on its layout, under a rule and a scale, by the grouping over a search.
// All starts and goals of the roster are on the layout, and so are the sections that are closed.
// Clauses name `meaning R.Rule.conflicts S.Scale.measure Q.Search.takes` each time: an impl of a type has no ghost member
// to say it once, and as the member of a trait it would be no shorter, `⟦<Planner<R, S, Q> as Meant>⟧.meaning`.
#[derive(Drop)]
pub struct Planner<R, S, Q> {
    pub(crate) layout: Layout,
    pub(crate) rule: R,
    pub(crate) scale: S,
    pub(crate) search: Grouping<Q>,
    pub(crate) roster: Roster,
    ghost placed: { on_layout (sections_of layout) (held roster) ≡ true },
    ghost closed_inside: { ClosedInside (sections_of layout) (seen roster) },
}

ghost use Rattle.std.specs.Prelude.{◌≡◌};
ghost use Rattle.track.specs.Layouts.{fouled};
ghost use Rattle.track.specs.declared.layout.Layout.{Layout};
ghost use Rattle.rules.specs.Conflicts.{following};
ghost use Rattle.track.proofs.Laws.{fouled_swapped};
ghost use Rattle.rules.specs.Lawful.{following_laws};

use crate::moves::Move;
use crate::rule::Rule;
use track::layout::Layout;

// A train may enter a section in the step in which another leaves it.
#[derive(Clone, Copy)]
pub struct Following;

impl Rule for Following {
    ghost conflicts = { λ _ l. following (fouled l) };

    ghost lawful = { λ s l. following_laws (fouled l) (fouled_swapped l) };

    fn conflict(&self, layout: &Layout, one: Move, other: Move) -> bool
        ensures whether_the_moves_conflict { result ≡ following (fouled layout.now) one.from one.to other.from other.to }
        ensures it_means_following { (l : Layout) → ⟦<Following as Rule>⟧.conflicts self.now l ≡ following (fouled l) }
    {
        one.to == other.to
            || (one.from == other.to && one.to == other.from)
            || one.crosses(other, layout)
    }
}

ghost use Rattle.std.specs.Prelude.{◌≡◌};
ghost use Rattle.track.specs.Layouts.{fouled};
ghost use Rattle.track.specs.declared.layout.Layout.{Layout};
ghost use Rattle.rules.specs.Conflicts.{clear_section};
ghost use Rattle.track.proofs.Laws.{fouled_swapped};
ghost use Rattle.rules.specs.Lawful.{clear_section_laws};

use crate::moves::Move;
use crate::rule::Rule;
use track::layout::Layout;

// A train may enter a section only if no other stood in it as the step began.
#[derive(Clone, Copy)]
pub struct ClearSection;

impl Rule for ClearSection {
    ghost conflicts = { λ _ l. clear_section (fouled l) };

    ghost lawful = { λ s l. clear_section_laws (fouled l) (fouled_swapped l) };

    fn conflict(&self, layout: &Layout, one: Move, other: Move) -> bool
        ensures whether_the_moves_conflict { result ≡ clear_section (fouled layout.now) one.from one.to other.from other.to }
        ensures it_means_clear_section { (l : Layout) → ⟦<ClearSection as Rule>⟧.conflicts self.now l ≡ clear_section (fouled l) }
    {
        one.to == other.to
            || one.to == other.from
            || one.from == other.to
            || one.crosses(other, layout)
    }
}

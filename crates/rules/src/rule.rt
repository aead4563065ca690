ghost use Rattle.std.specs.Prelude.{◌≡◌};
ghost use Rattle.track.specs.declared.layout.Layout.{Layout};
ghost use Rattle.rules.specs.Conflicts.{Conflicts, RuleLaws};

use crate::moves::Move;
use track::layout::Layout;

// A rule, by which pairs of moves conflict on a layout. Every rule keeps the laws.
pub trait Rule {
    ghost conflicts: { Self → Layout → Conflicts };

    // Whether two moves, made in one step, conflict.
    fn conflict(&self, layout: &Layout, one: Move, other: Move) -> bool
        ensures whether_the_moves_conflict { result ≡ conflicts self.now layout.now one.from one.to other.from other.to };

    ghost lawful: { (s : Self) (l : Layout) → RuleLaws (conflicts s l) };
}

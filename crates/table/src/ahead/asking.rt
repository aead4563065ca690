ghost use Rattle.std.specs.Prelude.{◌≡◌, ◌≤◌};
ghost use Rattle.words.specs.Rests.{On};
ghost use Rattle.words.specs.Tasks.{task, rest_from};

use crate::ahead::Ahead;
use rules::rule::Rule;
use scales::scale::Scale;
use words::rests::Rests;

impl<'a, 'b, S: Scale, R: Rule, N: Rests<S::Cost>> Ahead<'a, 'b, S, R, N> {
    // The least cost of the rest, with so many steps left.
    pub(crate) fn rest(&self, left: usize, at: [u8; 8]) -> Option<S::Cost>
        requires so_many_are_known { left ≤ self.now.most }
        requires on_the_layout { On (task R.Rule.conflicts self.now.group.now.board) self.now.group.now.board.trains at }
        ensures the_least_cost_of_the_rest { result ≡ rest_from (S.Scale.measure self.now.group.now.board.scale.now) (task R.Rule.conflicts self.now.group.now.board) left at }
    {
        self.rests.rest(left, at)
    }
}

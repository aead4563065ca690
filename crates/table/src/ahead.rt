ghost use Rattle.table.specs.Ahead.{Tells};
ghost use Rattle.words.specs.Tasks.{task};

use rules::rule::Rule;
use scales::scale::Scale;
use words::group::Group;
use words::rests::Rests;

pub mod asking;

// What a group is searched on, with costs of the rest that are known for up to `most` steps left.
// Measure and task stand side by side in each clause of this crate, for the reason that stands in `step`.
#[derive(Drop)]
pub(crate) struct Ahead<'a, 'b, S: Scale, R: Rule, N: Rests<S::Cost>> {
    pub(crate) group: &'a Group<'b, S, R>,
    pub(crate) rests: &'a N,
    pub(crate) most: usize,
    ghost knows: { ∥ Tells (S.Scale.measure group.now.board.scale.now) (task R.Rule.conflicts group.now.board) most (N.Rests.asked rests.now) (N.Rests.known rests.now) ∥₁ },
}

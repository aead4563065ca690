ghost use Rattle.std.specs.Prelude.{◌≡◌, ◌^◌};
ghost use Rattle.track.specs.Layouts.{sections_of};

use words::group::Group;

pub mod codes;

// The joint positions of a group's trains on its sections. Each has a number below `count`:
// its sections as digits, the first train's the highest.
#[derive(Drop)]
pub(crate) struct Positions<'a, S, R> {
    pub(crate) group: &'a Group<'a, S, R>,
    pub(crate) count: usize,
    ghost all: { count ≡ sections_of group.now.board.layout.now ^ group.now.board.trains },
}

ghost use Rattle.std.specs.Prelude.{◌≡◌, ℕ, ◌<◌, ◌≤◌, take, slice_index};
ghost use Rattle.track.specs.Layouts.{sections_of};
ghost use Rattle.table.specs.Codes.{digits, code_of};

use crate::positions::Positions;
use words::group::Group;

impl<'a, S, R> Positions<'a, S, R> {
    // The joint positions of a group's trains.
    pub(crate) fn of(group: &'a Group<'a, S, R>) -> Positions<'a, S, R>
        ensures of_the_group { result.group.now ≡ group.now }
    {
        // the cast loses nothing, a group has at most 8 trains: `u32::try_from` with an `unwrap` would say no more
        let trains = group.board.trains as u32;
        Positions {
            group,
            count: usize::from(group.board.layout.sections()).pow(trains),
        }
    }

    // The joint position that a number stands for.
    pub(crate) fn decode(&self, code: usize) -> [u8; 8]
        requires { code < self.now.count }
        ensures the_digits_of_the_code { take self.now.group.now.board.trains result ≡ digits (sections_of self.now.group.now.board.layout.now) self.now.group.now.board.trains code }
    {
        let group = self.group;
        let sections = usize::from(group.board.layout.sections());
        let mut at = [0; 8];
        let mut left = code;
        // by the place: after a loop over `iter_mut().rev()` a proof knows no digit that it wrote
        for i in (0..self.group.board.trains).rev() {
            // the cast loses nothing, a layout has at most 32 sections: `u8::try_from` with an `unwrap` would say no more
            at[i] = (left % sections) as u8;
            left /= sections;
        }
        at
    }

    // The number that stands for a joint position.
    pub(crate) fn code_of(&self, at: [u8; 8]) -> usize
        requires { (i : ℕ) → i < self.now.group.now.board.trains → slice_index at i < sections_of self.now.group.now.board.layout.now }
        ensures the_code_of_the_position { result ≡ code_of (sections_of self.now.group.now.board.layout.now) self.now.group.now.board.trains at }
        ensures one_of_them { result < self.now.count }
    {
        let group = self.group;
        let sections = usize::from(group.board.layout.sections());
        let mut code = 0;
        for section in &at[..self.group.board.trains] {
            code = code * sections + usize::from(*section);
        }
        code
    }
}

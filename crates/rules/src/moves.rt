ghost use Rattle.std.specs.Prelude.{◌≡◌};
ghost use Rattle.track.specs.Layouts.{fouled};
ghost use Rattle.rules.specs.Conflicts.{runs, crossing};

use track::layout::Layout;

// A move of a train in one step, from a section to a section; the train stands where both are the same.
#[derive(Clone, Copy, PartialEq, Eq, Debug)]
pub struct Move {
    pub from: u8,
    pub to: u8,
}

impl Move {
    pub fn new(from: u8, to: u8) -> Move
        ensures it_begins_there { result.from ≡ from }
        ensures it_ends_there { result.to ≡ to }
    {
        Move { from, to }
    }

    // Whether the train runs to another section.
    pub fn runs(&self) -> bool
        ensures whether_it_is_to_another_section { result ≡ runs self.now.from self.now.to }
    {
        self.from != self.to
    }

    // Whether both run, over links that cross on the ground.
    pub fn crosses(&self, other: Move, layout: &Layout) -> bool
        ensures whether_their_links_cross { result ≡ crossing (fouled layout.now) self.now.from self.now.to other.from other.to }
    {
        self.runs() && other.runs() && layout.fouls(self.from, self.to, other.from, other.to)
    }
}

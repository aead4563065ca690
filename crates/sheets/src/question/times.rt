ghost use Rattle.std.specs.Prelude.{◌≡◌, ◌+◌, ◌≤◌};

use crate::question::Question;

impl Question<'_, '_> {
    // How many times a sheet of the question has: the start, and one after each step.
    pub fn times(&self) -> usize
        ensures one_more_than_the_steps { result ≡ self.now.steps + 1 }
        ensures at_most_seventeen { result ≤ 17 }
    {
        self.steps + 1
    }
}

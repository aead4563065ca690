ghost use Rattle.std.specs.Prelude.{◌≡◌};

use crate::check::Check;

impl<Q> Check<Q> {
    // The check over a search. `Grouping` has the like: the type of a layer tells which it is, and a shared constructor would be no plainer.
    pub fn over(below: Q) -> Check<Q>
        ensures it_holds_the_search_that_was_handed_over { result.below ≡ below }
    {
        Check { below }
    }
}

ghost use Rattle.std.specs.Prelude.{◌≡◌, ◌||◌, IfOk, None, ◌==◌, nat_lt};
ghost use Rattle.track.specs.Refusals.{met, refused_by};

use crate::walk::Walk;
use track::refusal::Refusal;

impl Walk {
    // A walk for a greatest group of so many trains.
    pub fn new(most: usize) -> Result<Walk, Refusal>
        ensures a_greatest_group_of_none_or_above_eight_declines { refused_by result ≡ met 26 (most == 0 || nat_lt 8 most) None }
        ensures the_greatest_group_is_kept { IfOk result (λ w. w.most ≡ most) }
    {
        if most == 0 || most > 8 {
            return Err(Refusal::GroupSizeOutOfRange);
        }
        Ok(Walk { most })
    }
}

ghost use Rattle.std.specs.Prelude.{◌≡◌};
ghost use Rattle.scales.specs.Pairs.{pair};

use crate::pair::Pair;

impl Pair {
    pub fn of(steps: u16, points: u16) -> Pair
        ensures so_many_steps_and_points { result ≡ pair steps points }
    {
        Pair { steps, points }
    }
}

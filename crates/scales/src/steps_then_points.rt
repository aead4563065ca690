ghost use Rattle.std.specs.Prelude.{◌≡◌};
ghost use Rattle.scales.specs.Pairs.{pairs};
ghost use Rattle.scales.specs.PairLaws.{pairs_laws};

use crate::pair::Pair;
use crate::scale::Scale;

// The scale that counts steps, and among equals the points run over.
#[derive(Clone, Copy)]
pub struct StepsThenPoints;

impl Scale for StepsThenPoints {
    type Cost = Pair;

    ghost measure = { λ _. pairs };

    ghost lawful = { λ s. pairs_laws };

    fn lower(&self, a: Pair, b: Pair) -> bool {
        a < b
    }

    fn join(&self, a: Pair, b: Pair) -> Pair {
        Pair::of(
            a.steps.saturating_add(b.steps),
            a.points.saturating_add(b.points),
        )
    }

    fn nothing(&self) -> Pair {
        Pair::of(0, 0)
    }

    fn price(&self, points: u8, rests: bool) -> Pair
        ensures the_price_of_the_step { result ≡ pairs.price points rests }
        ensures its_measure_is_steps_then_points { ⟦<StepsThenPoints as Scale>⟧.measure self.now ≡ pairs }
    {
        // `Steps` begins alike: only the test is common, as each scale has its own number for a step.
        if rests {
            return self.nothing();
        }
        Pair::of(1, u16::from(points))
    }
}

ghost use Rattle.std.specs.Prelude.{◌≡◌};
ghost use Rattle.scales.specs.Steps.{steps};
ghost use Rattle.scales.specs.StepLaws.{steps_laws};

use crate::scale::Scale;

// The scale that counts the steps before a train rests at its goal.
#[derive(Clone, Copy)]
pub struct Steps;

impl Scale for Steps {
    type Cost = u16;

    ghost measure = { λ _. steps };

    ghost lawful = { λ s. steps_laws };

    fn lower(&self, a: u16, b: u16) -> bool {
        a < b
    }

    fn join(&self, a: u16, b: u16) -> u16 {
        a.saturating_add(b)
    }

    fn nothing(&self) -> u16 {
        0
    }

    fn price(&self, points: u8, rests: bool) -> u16
        ensures the_price_of_the_step { result ≡ steps.price points rests }
        ensures its_measure_is_steps { ⟦<Steps as Scale>⟧.measure self.now ≡ steps }
    {
        // every priced step costs 1, over however many points
        let _ = points;
        if rests {
            return self.nothing();
        }
        1
    }
}

ghost use Rattle.std.specs.Prelude.{◌≡◌, ◌<◌};
ghost use Rattle.walk.specs.Spots.{after, next_step};

use crate::spot::Spot;
use words::turn::Turn;

impl<C: Copy> Spot<C> {
    // After the next train has gone to x, when so much is spent.
    pub(crate) fn after(&self, x: u8, sofar: C) -> Spot<C>
        requires a_train_is_left { self.now.turn.moved < 8 }
        requires room { self.now.place < 128 }
        ensures the_next_train_has_gone_there { result ≡ after self.now x sofar }
    {
        Spot {
            turn: self.turn.after(x),
            place: self.place + 1,
            sofar,
        }
    }

    // As the next step begins, after all have gone.
    pub(crate) fn next_step(&self) -> Spot<C>
        requires { 0 < self.now.turn.left }
        ensures the_next_step_begins_there { result ≡ next_step self.now }
    {
        Spot {
            turn: Turn::begin(self.turn.left - 1, self.turn.to),
            ..*self
        }
    }
}

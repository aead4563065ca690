ghost use Rattle.std.specs.Prelude.{◌≡◌, ◌<◌};
ghost use Rattle.words.specs.Turns.{begun, after};

use crate::turn::Turn;

impl Turn {
    // As the step begins: no train has moved.
    pub fn begin(left: usize, at: [u8; 8]) -> Turn
        ensures no_train_has_moved { result ≡ begun left at }
    {
        Turn {
            left,
            at,
            to: [0; 8],
            moved: 0,
        }
    }

    // After the next train has gone to x.
    pub fn after(&self, x: u8) -> Turn
        requires { self.now.moved < 8 }
        ensures the_next_train_has_gone_there { result ≡ after self.now x }
    {
        let mut to = self.to;
        to[self.moved] = x;
        Turn {
            to,
            moved: self.moved + 1,
            ..*self
        }
    }
}

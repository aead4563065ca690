ghost use Rattle.std.specs.Prelude.{◌<◌};

// A generator of numbers, the same in every run.
#[derive(Drop)]
pub struct Dice {
    pub state: u64,
}

impl Dice {
    // A number below `n`, or 0 where there is none.
    pub fn below(&mut self, n: u8) -> u8
        ensures below_what_is_asked_for { 0 < n → result < n }
    {
        self.state = self
            .state
            .wrapping_mul(6364136223846793005)
            .wrapping_add(1442695040888963407);
        ((self.state >> 33) % u64::from(n.max(1))) as u8
    }

    // True once in so many times.
    pub fn once_in(&mut self, n: u8) -> bool {
        self.below(n) == 0
    }
}

ghost use Rattle.std.specs.Prelude.{◌≡◌, ℕ, List, Option};

// Costs of what is still to come, whoever worked them out: for so many steps left and a joint position, one cost or none.
pub trait Rests<C> {
    // what it may be asked
    ghost asked: { Self → ℕ → List ℕ → Type 0 };

    // what it says
    ghost known: { Self → ℕ → List ℕ → Option C };

    fn rest(&self, left: usize, at: [u8; 8]) -> Option<C>
        requires { asked self.now left at }
        ensures what_is_known { result ≡ known self.now left at };
}

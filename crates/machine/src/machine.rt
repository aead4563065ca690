ghost use Rattle.std.specs.Prelude.{◌≡◌, true, is_some};

use crate::phase::Phase;

pub mod line;
pub mod make;
pub mod print;
mod turn;

// Does frames, one line after the other.
// The phase is in an Option so that the finish, which uses the drawing up, can take it out and put the next
// in its place.
#[derive(Drop)]
pub struct Machine<R, S, Q> {
    phase: Option<Phase<R, S, Q>>,
    ghost there: { is_some phase ≡ true },
}

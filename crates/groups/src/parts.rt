ghost use Rattle.std.specs.Prelude.{◌<◌};
ghost use Rattle.std.specs.List.{All};

pub mod edit;
pub mod seek;

// The parts of a group of trains. Each part goes by one of its rows; `names` has for each row the row that its part goes by.
// A table of fixed size: a roster has at most 8 rows, and splitting a group may not fail for want of memory.
// The kit's `arrayvec` would have no more items than rows, but its statements would then be trusted.
#[derive(Clone, Copy)]
pub struct Parts {
    names: [usize; 8],
    ghost rows: { All (λ n. n < 8) names },
}

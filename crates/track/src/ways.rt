ghost use Rattle.std.specs.Prelude.{◌≡◌, ◌≤◌, take, is_some, None, slice_index_or};
ghost use Rattle.track.specs.Ways.{passing};

pub mod find;

// The ways from a section: the points on the way to each section, and the sections that a way leads to, in rising order.
// The sections are an array with a count, and no `FixedList`, which is not `Copy`.
#[derive(Clone, Copy)]
pub struct Ways {
    points: [Option<u8>; 32],
    count: usize,
    ends: [u8; 32],
    ghost room: { count ≤ 32 },
    ghost listed: { take count ends ≡ passing (λ b. is_some (slice_index_or points b None)) 32 },
}

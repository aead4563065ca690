use words::turn::Turn;

pub mod moving;

// A place in the sheets that are tried. The sections to come are written into the plan from `place` on, and `sofar` is spent before them.
#[derive(Clone, Copy)]
pub(crate) struct Spot<C> {
    pub turn: Turn,
    pub place: usize,
    pub sofar: C,
}

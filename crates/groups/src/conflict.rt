// Two trains, by their rows, whose moves in the step that begins at the time `step` conflict.
#[derive(Clone, Copy, PartialEq, Eq, Debug)]
pub struct Conflict {
    pub step: usize,
    pub row: usize,
    pub other: usize,
}

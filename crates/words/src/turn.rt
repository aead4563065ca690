pub mod moving;

// A place in a joint step. The step began with the trains at `at`, the first `moved` of them have gone to the sections in `to`;
// `left` steps come after it.
#[derive(Clone, Copy)]
pub struct Turn {
    pub left: usize,
    pub at: [u8; 8],
    pub to: [u8; 8],
    pub moved: usize,
}

// The sections of a group's trains after each step, by step and then by train, and what they cost.
// The plan is a table of fixed size, 8 trains by 16 steps, since no search may fail for want of memory.
// The kit's `arrayvec` would ask for none either, but its statements would then be trusted.
// It is flat, since it is one word: the searches' proofs read it as one list, choice by choice.
#[derive(Clone, Copy)]
pub struct Found<C> {
    pub cost: C,
    pub plan: [u8; 128],
}

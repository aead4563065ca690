// The move of one train, and the cost of it and of all that is still to come.
#[derive(Clone, Copy)]
pub(crate) struct Pick<C> {
    pub cost: C,
    pub section: u8,
}

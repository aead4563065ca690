// A grouping over the search `below`, which it asks for one group after the other.
#[derive(Drop)]
pub struct Grouping<Q> {
    pub below: Q,
}

// The check over the search below it, which it asks only if every train of the group alone can reach its goal.
#[derive(Drop)]
pub struct Check<Q> {
    pub below: Q,
}

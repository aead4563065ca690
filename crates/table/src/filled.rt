use crate::positions::Positions;

// A worksheet that is filled: with so many steps left, the cost of the joint position of a number `code` is in the cell `left * count + code`.
#[derive(Drop)]
pub(crate) struct Filled<'a, 'b, 'c, S, R, C> {
    pub(crate) cells: &'a [Option<C>],
    pub(crate) positions: &'b Positions<'c, S, R>,
}

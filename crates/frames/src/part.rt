// The part of a line that has the fields of a frame, as digits, and the place of the line at which it begins.
#[derive(Clone, Copy, PartialEq, Eq, Debug)]
pub struct Part<'a> {
    pub digits: &'a [u8],
    pub place: usize,
}

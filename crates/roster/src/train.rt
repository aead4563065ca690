// A train to be planned: it is to go from the section `start` to the section `goal`.
#[derive(Clone, Copy, PartialEq, Eq, Debug)]
pub struct Train {
    pub number: u16,
    pub start: u8,
    pub goal: u8,
}

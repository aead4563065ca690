use crate::part::Part;

// What a line asks for, with the part of the line that has its fields.
// Each case holds its part, so that a match has the fields where it has the kind: with a struct of kind and part,
// the machine's match of phase and kind would take both apart first, and be no plainer.
#[derive(Clone, Copy, PartialEq, Eq, Debug)]
pub enum Frame<'a> {
    // 01 k: adds k sections
    AddSections(Part<'a>),
    // 02 a b p: links a and b over p points
    Link(Part<'a>),
    // 03 a b c d: the link a-b fouls the link c-d
    Foul(Part<'a>),
    // 04: finishes the drawing
    Finish(Part<'a>),
    // 05 number (two bytes, the high one first) start goal: enters a train
    Enter(Part<'a>),
    // 06 number (two bytes, the high one first): withdraws a train
    Withdraw(Part<'a>),
    // 07 h: plans h steps
    Plan(Part<'a>),
}

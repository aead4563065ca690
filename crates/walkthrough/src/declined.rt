use std::fmt;
use track::refusal::Refusal;

// What was declined, and why.
// The station says why alike. One text in a library would be no plainer: it would owe a promise of it, and each program names the call in its own way.
#[derive(Clone, Copy)]
pub struct Declined<'a> {
    pub what: &'a str,
    pub refusal: Refusal,
}

impl fmt::Display for Declined<'_> {
    fn fmt<W: fmt::Write>(&self, f: &mut fmt::Formatter<W>) -> fmt::Result {
        let Declined { what, refusal } = self;
        let number = refusal.number();
        write!(f, "{what}: declined with {number}, {refusal:?}")
    }
}

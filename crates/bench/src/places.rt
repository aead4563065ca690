use std::fmt;

// The sections in which a train stands.
// The walkthrough and the station have the like: two programs share no crate of their own, and one form in a library would be no plainer, as it would
// owe a promise of its text, and the three print in different widths.
#[derive(Clone, Copy)]
pub struct Places<'a>(pub &'a [u8]);

impl fmt::Display for Places<'_> {
    fn fmt<W: fmt::Write>(&self, f: &mut fmt::Formatter<W>) -> fmt::Result {
        for section in self.0 {
            write!(f, " {section:2}")?;
        }
        Ok(())
    }
}

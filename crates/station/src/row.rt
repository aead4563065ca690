use std::fmt;

// The row of a sheet: the number of a train, and the sections in which it stands.
// The walkthrough and the bench have the like: two programs share no crate of their own, and one form in a library would be no plainer, as it would
// owe a promise of its text, and the three print in different widths.
#[derive(Clone, Copy)]
pub struct Row<'a> {
    pub number: u16,
    pub sections: &'a [u8],
}

impl fmt::Display for Row<'_> {
    fn fmt<W: fmt::Write>(&self, f: &mut fmt::Formatter<W>) -> fmt::Result {
        write!(f, "  train {:4}:", self.number)?;
        for section in self.sections {
            write!(f, " {section}")?;
        }
        Ok(())
    }
}

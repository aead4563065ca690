ghost use Rattle.std.specs.Prelude.{◌≡◌};

// Names a section that was closed and is under possession. Only a planner makes one. It can be neither copied nor let go:
// whoever has it must give it up at a planner, which opens the section again.
pub struct Note {
    pub(crate) section: u8,
}

impl Note {
    // The section that the note names.
    pub fn section(&self) -> u8
        ensures the_section_that_it_names { result ≡ self.now.section }
    {
        self.section
    }
}

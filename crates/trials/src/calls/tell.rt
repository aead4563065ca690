use crate::calls::Calls;

impl Calls {
    pub fn all_agree(&self) -> bool {
        self.agreed == self.made
    }

    // Prints what was called, and how it was replied to.
    pub fn tell(&self, rt: &HostRuntime) -> anyhow::Result<()> {
        println!(rt;
            "{} lists of calls: {} calls, {} replies agreed",
            self.lists, self.made, self.agreed
        )?;
        println!(rt;
            "  accepted: {}, with a note: {}, told what is closed: {}",
            self.accepted, self.noted, self.asked
        )?;
        println!(rt;
            "  planned: {}, of more than one group: {}",
            self.planned, self.several
        )?;
        for (number, times) in self.declined.iter().enumerate() {
            if *times > 0 {
                println!(rt; "  declined with {number:2}: {times}")?;
            }
        }
        Ok(())
    }
}

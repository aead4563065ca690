use crate::questions::Questions;
use crate::tally::Tally;

// The piles over a search, in the order in which they are asked.
const PILES: [&str; 7] = [
    "alone",
    "check",
    "check over check",
    "check over grouping",
    "grouping",
    "grouping over check",
    "grouping over grouping",
];

fn tell_piles(rt: &HostRuntime, search: &str, tallies: &[Tally; 7]) -> anyhow::Result<()> {
    for (pile, tally) in PILES.iter().zip(tallies) {
        println!(rt; "  {search:6} {pile:22} {tally}")?;
    }
    Ok(())
}

impl Questions {
    pub fn all_agree(&self) -> bool {
        self.walk
            .iter()
            .chain(&self.table)
            .all(|tally| tally.all_agree())
    }

    // Prints what was asked and how it was answered.
    pub fn tell(&self, rt: &HostRuntime) -> anyhow::Result<()> {
        let [one, two, three] = self.trains;
        println!(rt;
            "{} questions: {one} of one train, {two} of two, {three} of three",
            self.asked
        )?;
        let [one, two, three, four] = self.steps;
        println!(rt; "  in one to four steps: {one}, {two}, {three}, {four}")?;
        println!(rt;
            "  without a lawful sheet: {}; with several that cost the least: {}",
            self.none, self.ties
        )?;
        println!(rt; "                                 asked agreed  sheet groups   none beyond")?;
        tell_piles(rt, "walk", &self.walk)?;
        tell_piles(rt, "table", &self.table)
    }
}

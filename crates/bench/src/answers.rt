use crate::places::Places;
use crate::report::Report;
use rules::following::Following;
use scales::steps::Steps;
use search::answer::Unplanned;
use search::search::Search;
use sheets::asked::Asked;
use sheets::question::Question;
use sheets::sheet::Sheet;

// Tells the answer and the sheet.
pub struct Answers;

fn show_sheet(rt: &HostRuntime, question: &Question, sheet: &Sheet) -> anyhow::Result<()> {
    for sections in &sheet.rows[..question.roster.count()] {
        let places = Places(&sections[..question.times()]);
        println!(rt; "   {places}")?;
    }
    Ok(())
}

impl Report for Answers {
    fn tell<Q: Search<Steps>>(
        &self,
        rt: &HostRuntime,
        name: &str,
        search: &mut Q,
        asked: &Asked<Following, Steps>,
        cells: &mut [Option<u16>],
    ) -> anyhow::Result<()> {
        let mut sheet = Sheet::default();
        match search.search(asked, cells, &mut sheet) {
            Err(Unplanned::BeyondReach) => println!(rt; "  {name}: beyond reach")?,
            Err(Unplanned::NoSheet) => println!(rt; "  {name}: none")?,
            Ok(cost) => {
                println!(rt; "  {name}: cost {cost}")?;
                show_sheet(rt, asked.question, &sheet)?;
            }
        }
        Ok(())
    }
}

use crate::report::Report;
use rules::following::Following;
use scales::steps::Steps;
use search::search::Search;
use sheets::asked::Asked;
use sheets::sheet::Sheet;
use std::time::Instant;

// Tells how long the search took.
pub struct Times;

impl Report for Times {
    fn tell<Q: Search<Steps>>(
        &self,
        rt: &HostRuntime,
        name: &str,
        search: &mut Q,
        asked: &Asked<Following, Steps>,
        cells: &mut [Option<u16>],
    ) -> anyhow::Result<()> {
        let mut sheet = Sheet::default();
        let start = Instant::now(rt)?;
        // its answer is let go: only the time is told
        let _ = search.search(asked, cells, &mut sheet);
        let micros = start.elapsed(rt)?.as_micros();
        println!(rt; "  {name}: {micros} microseconds")?;
        Ok(())
    }
}

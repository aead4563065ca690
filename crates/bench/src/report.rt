use rules::following::Following;
use scales::steps::Steps;
use search::search::Search;
use sheets::asked::Asked;

// What is told of a search that is asked.
pub trait Report {
    fn tell<Q: Search<Steps>>(
        &self,
        rt: &HostRuntime,
        name: &str,
        search: &mut Q,
        asked: &Asked<Following, Steps>,
        cells: &mut [Option<u16>],
    ) -> anyhow::Result<()>;
}

use planner::planner::Planner;
use rules::following::Following;
use single_check::check::Check;
use table::table::Table;

mod calls;
mod shift;

// An office: where it prints, the scale in whose words it tells costs, its planner, and the worksheet to plan with.
#[derive(Drop)]
pub struct Office<'a, S, C> {
    pub rt: &'a HostRuntime,
    pub scale: S,
    pub planner: Planner<Following, S, Check<Table<C>>>,
    pub cells: &'a mut [Option<C>],
}

ghost use Rattle.std.specs.Prelude.{◌≡◌, ◌≤◌, true, length};
ghost use Rattle.roster.specs.Trains.{rising, all_numbered, apart_by, all_open, start_of, goal_of};

use crate::train::Train;
use track::list::FixedList;

mod checks;
pub mod edit;
pub mod lookup;

// The trains to be planned, in rising number, and the sections that are closed.
// A closed section is under possession: work goes on there, and no train may enter it.
// Each train has a row, counted from 0. The bit `k` of `closed` is set where the section `k` is closed.
#[derive(Drop)]
pub struct Roster {
    closed: u32,
    trains: FixedList<Train, 8>,
    ghost room: { length trains ≤ 8 },
    ghost ordered: { rising trains ≡ true },
    ghost numbered: { all_numbered trains ≡ true },
    ghost starts: { apart_by start_of trains ≡ true },
    ghost goals: { apart_by goal_of trains ≡ true },
    ghost free: { all_open closed trains ≡ true },
}

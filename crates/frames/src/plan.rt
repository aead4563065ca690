ghost use Rattle.std.specs.Prelude.{◌≤◌, length};

use sheets::sheet::Sheet;
use track::list::FixedList;

pub mod make;

// What is printed of a plan, and all of it: the numbers of its trains in rising order, where each row stands, over how many steps,
// the cost, and how many groups there are. A plan stays as it was made, whatever becomes of the roster and the sheet.
#[derive(Drop)]
pub struct Plan<C> {
    pub numbers: FixedList<u16, 8>,
    pub sheet: Sheet,
    pub steps: usize,
    pub cost: C,
    pub groups: u8,
    ghost few_trains: { length numbers ≤ 8 },
    ghost few_steps: { steps ≤ 16 },
}

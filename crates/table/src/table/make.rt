ghost use Rattle.std.specs.Prelude.{◌≡◌, IfOk, None, replicate};

use crate::table::Table;
use std::alloc::{AllocError, Global};

impl<C: Copy> Table<C> {
    // A table with room for a run of 33 cells for each of 8 trains, or an error where memory lacks.
    pub fn new(alloc: Global) -> Result<Table<C>, AllocError>
        ensures its_room_is_eight_runs_of_empty_cells { IfOk result (λ t. t.room.items ≡ replicate 264 None) }
    {
        Ok(Table {
            room: vec![in alloc; None; 8 * 33]?,
        })
    }
}

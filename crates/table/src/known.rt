ghost use Rattle.std.specs.Prelude.{◌≡◌};
ghost use Rattle.table.specs.Columns.{Within, cell_at};

use crate::filled::Filled;
use words::rests::Rests;

impl<'a, 'b, 'c, S, R, C: Copy> Rests<C> for Filled<'a, 'b, 'c, S, R, C> {
    ghost asked = { Within };

    ghost known = { cell_at };

    fn rest(&self, left: usize, at: [u8; 8]) -> Option<C> {
        self.cells[left * self.positions.count + self.positions.code_of(at)]
    }
}

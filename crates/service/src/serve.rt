ghost use Rattle.service.specs.Program.{ServedOver};

use crate::serving::serve_by;
use rules::following::Following;
use scales::steps::Steps;
use single_check::check::Check;
use std::io;
use std::io::{Read, Write};
use table::table::Table;

// The cells of the worksheet that each plan is made with.
const CELLS: usize = 4096;

// Reads lines of frames to the end of the input, and writes what they print, each line's answer before
// more is read: under following, by steps, and by the single-train check over the table handed over.
pub fn serve<I: Read, O: Write>(reader: &mut I, writer: &mut O, table: Table<u16>) -> io::Result<()>
    ensures what_the_lines_read_print_is_written_in_their_order_and_nothing_else { ServedOver table
        (I.remaining reader.old) (I.remaining reader.new)
        (O.contents writer.old) (O.contents writer.new) result }
{
    let below = Check::over(table);
    let mut cells = [None; CELLS];
    serve_by(reader, writer, Following, Steps, below, &mut cells)
}

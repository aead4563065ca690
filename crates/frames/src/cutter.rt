ghost use Rattle.std.specs.Prelude.{◌≤◌, length};

use track::list::FixedList;

pub mod cut;

// Cuts bytes into lines, one byte after the other. A line ends at 0A, which is not of it.
// Of the current line the first 65 bytes are held: enough to tell that it has over 64, and what it is read as.
// `ended` is no Option around the bytes: a line that was ended is held until the next begins.
#[derive(Drop)]
pub struct Cutter {
    held: FixedList<u8, 65>,
    ended: bool,
    ghost room: { length held ≤ 65 },
}

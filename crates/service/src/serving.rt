ghost use Rattle.std.specs.Prelude.{length};
ghost use Rattle.planner.specs.History.{meaning};
ghost use Rattle.service.specs.Serving.{Served};

use crate::answer::answer;
use machine::intake::Intake;
use rules::rule::Rule;
use scales::printed::PrintedScale;
use search::search::Search;
use sheets::sheet::Sheet;
use std::io;
use std::io::{Error, ErrorKind, Read, Write};

// Answers each line by a machine with this rule and scale, over this search, with these cells:
// as soon as the line is ended, and before more is read.
// Nothing says that an input ends, so the reads are counted, and after 2 ^ 64 of them serving fails.
pub(crate) fn serve_by<
    I: Read,
    O: Write,
    R: Rule + Drop,
    S: PrintedScale + Drop,
    Q: Search<S> + Drop,
>(
    reader: &mut I,
    writer: &mut O,
    rule: R,
    scale: S,
    below: Q,
    cells: &mut [Option<S::Cost>],
) -> io::Result<()>
    ensures each_line_read_is_answered_in_its_order { let k =
        meaning R.Rule.conflicts S.Scale.measure Q.Search.takes in
        Served k rule scale below (length cells.old) (S.PrintedScale.shown scale)
        (I.remaining reader.old) (I.remaining reader.new)
        (O.contents writer.old) (O.contents writer.new) result }
{
    let mut intake = Intake::new(rule, scale, below);
    let mut sheet = Sheet::default();
    let mut piece = [0; 4096];
    'pieces: for _ in 0..u64::MAX {
        let count = match reader.read(&mut piece) {
            Ok(0) => {
                if let Some(last) = intake.end(cells, &mut sheet) {
                    answer(&intake, &last, writer)?;
                }
                return Ok(());
            }
            Ok(count) => count,
            Err(error) if error.kind() == ErrorKind::Interrupted => continue,
            Err(error) => return Err(error),
        };
        'bytes: for byte in &piece[..count] {
            if intake.within(*byte) {
                continue;
            }
            if let Some(said) = intake.byte(*byte, cells, &mut sheet) {
                answer(&intake, &said, writer)?;
            }
        }
    }
    Err(Error::from(ErrorKind::TimedOut))
}

ghost use Rattle.std.specs.Prelude.{ℕ, List};
ghost use Rattle.frames.specs.Text.{text};
ghost use Rattle.planner.specs.History.{meaning};
ghost use Rattle.machine.specs.Lines.{LineEvent};
ghost use Rattle.machine.specs.Inputs.{InputHistory};
ghost use Rattle.machine.specs.Printing.{reply_lines};
ghost use Rattle.service.specs.Serving.{Sent};

use crate::send::send;
use machine::intake::Intake;
use machine::said::Said;
use rules::rule::Rule;
use scales::printed::PrintedScale;
use search::search::Search;
use std::io;
use std::io::Write;
use track::refusal::Refusal;

// Room for the longest that a reply can print: three characters for each byte of 8 lines of 20 bytes, one a train,
// and of the line of the total, which has at most 19 bytes for the cost and two beside it.
const ROOM: usize = 543;

// Sends what a reply prints, if it prints anything.
pub(crate) fn answer<O: Write, R: Rule, S: PrintedScale, Q: Search<S>>(
    intake: &Intake<R, S, Q>,
    said: &Result<Said<S::Cost>, Refusal>,
    writer: &mut O,
) -> io::Result<()>
    ensures all_that_it_prints_or_a_beginning { let k =
        meaning R.Rule.conflicts S.Scale.measure Q.Search.takes in
        (rule : R) (scale : S) (below : Q) (xs : List ℕ) (es : List (LineEvent S.Cost))
        → InputHistory k rule scale below xs es intake.now
        → Sent (O.contents writer.old) (O.contents writer.new)
        (text (reply_lines (S.PrintedScale.shown scale) said.now)) result }
{
    let mut place = [0; ROOM];
    match intake.print(said, &mut place) {
        Ok(0) => Ok(()),
        Ok(length) => send(writer, &place[..length]),
        Err(_) => unreachable!(),
    }
}

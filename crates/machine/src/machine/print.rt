use crate::machine::Machine;
use crate::phase::Phase;
use crate::said::Said;
use frames::print::{print_plan, print_refusal};
use scales::printed::PrintedScale;
use track::refusal::Refusal;

// The longest that a reply can print with costs of at most four bytes: three characters for each byte of 8
// lines of 20 bytes,
// one a train, and of the line of 6 for the total. A wider cost takes three more for each byte.
pub const LONGEST: usize = 498;

impl<R, S, Q> Machine<R, S, Q> {
    ghost use Rattle.std.specs.Prelude.{◌≡◌, Some};
    ghost use Rattle.machine.specs.Phases.{scale_in};

    // The scale that its plans are made under, and their costs printed by.
    fn scale(&self) -> &S
        ensures its_scale { scale_in self.now.phase ≡ Some result.now }
    {
        match &self.phase {
            Some(Phase::Drawing(desk)) => &desk.scale,
            Some(Phase::Planning(planner)) => planner.scale(),
            None => unreachable!(),
        }
    }
}

impl<R, S: PrintedScale, Q> Machine<R, S, Q> {
    ghost use Rattle.std.specs.Prelude.{◌≡◌, ◌+◌, ◌*◌, ◌≤◌, Some, IfOk, IsOk, length};
    ghost use Rattle.frames.specs.Text.{text, printing, printed, EachReadsBack};
    ghost use Rattle.machine.specs.Phases.{scale_in};
    ghost use Rattle.machine.specs.Printing.{reply_lines, APlanOfEightTrainsOverSixteenStepsHas};

    // Prints a reply: why the line was declined, or the plan that it made; other replies print nothing.
    // What is printed goes by the reply and the scale alone: where there was too little room, it can be
    // printed again
    // into a longer place, and whatever was done since.
    pub fn print(
        &self,
        said: &Result<Said<S::Cost>, Refusal>,
        out: &mut [u8],
    ) -> Result<usize, Refusal>
        ensures its_length_or_that_it_does_not_fit { (scale : S) → scale_in self.now.phase ≡ Some scale
            → result ≡ printing out.old (text (reply_lines (S.PrintedScale.shown scale) said.now)) }
        ensures just_the_text_or_nothing_is_written { (scale : S) → scale_in self.now.phase ≡ Some scale
            → out.new ≡ printed out.old (text (reply_lines (S.PrintedScale.shown scale) said.now)) }
        ensures its_lines_can_be_read_again { (scale : S) → scale_in self.now.phase ≡ Some scale
            → EachReadsBack result (reply_lines (S.PrintedScale.shown scale) said.now) }
        ensures no_more_than_there_is_room_for { IfOk result (λ n. n ≤ length out.old) }
        ensures a_place_for_the_widest_cost_is_long_enough { 480
            + 3 * (S.PrintedScale.WIDTH + 2) ≤ length out.old → IsOk result }
        ensures the_longest_with_four_bytes_of_cost_is_498 { LONGEST ≡ 498 }
        ensures some_reply_is_as_long { APlanOfEightTrainsOverSixteenStepsHas LONGEST }
    {
        match said {
            Err(refusal) => print_refusal(refusal, out),
            Ok(Said::Planned(plan)) => print_plan(self.scale(), plan, out),
            Ok(Said::Done) => Ok(0),
        }
    }
}

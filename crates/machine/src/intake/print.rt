use crate::intake::Intake;
use crate::said::Said;
use rules::rule::Rule;
use scales::printed::PrintedScale;
use search::search::Search;
use track::refusal::Refusal;

impl<R: Rule, S: PrintedScale, Q: Search<S>> Intake<R, S, Q> {
    ghost use Rattle.std.specs.Prelude.{◌≡◌, ◌+◌, ◌*◌, ◌≤◌, ℕ, List, Some, IfOk, IsOk, length};
    ghost use Rattle.frames.specs.Text.{text, printing, printed, EachReadsBack};
    ghost use Rattle.planner.specs.History.{meaning};
    ghost use Rattle.machine.specs.Lines.{LineEvent};
    ghost use Rattle.machine.specs.Phases.{scale_in};
    ghost use Rattle.machine.specs.Printing.{reply_lines};
    ghost use Rattle.machine.specs.Inputs.{InputHistory};

    // Prints a reply. What is printed goes by the reply and the scale alone: where there was too little room,
    // it can be printed again into a longer place, and whatever was done since.
    pub fn print(
        &self,
        said: &Result<Said<S::Cost>, Refusal>,
        out: &mut [u8],
    ) -> Result<usize, Refusal>
        ensures its_length_or_that_it_does_not_fit { (scale
            : S) → scale_in self.now.machine.phase ≡ Some scale
            → result ≡ printing out.old (text (reply_lines (S.PrintedScale.shown scale) said.now)) }
        ensures just_the_text_or_nothing_is_written { (scale
            : S) → scale_in self.now.machine.phase ≡ Some scale
            → out.new ≡ printed out.old (text (reply_lines (S.PrintedScale.shown scale) said.now)) }
        ensures after_any_input_it_goes_by_the_scale_that_the_intake_was_made_with { let k =
            meaning R.Rule.conflicts S.Scale.measure Q.Search.takes in
            (rule : R) (scale : S) (below : Q) (xs : List ℕ) (es : List (LineEvent S.Cost))
            → InputHistory k rule scale below xs es self.now
            → (result ≡ printing out.old (text (reply_lines (S.PrintedScale.shown scale) said.now)))
            × (out.new ≡ printed out.old (text (reply_lines (S.PrintedScale.shown scale) said.now))) }
        ensures no_more_than_there_is_room_for { IfOk result (λ n. n ≤ length out.old) }
        ensures a_place_for_the_widest_cost_is_long_enough { 480
            + 3 * (S.PrintedScale.WIDTH + 2) ≤ length out.old → IsOk result }
    {
        self.machine.print(said, out)
    }
}

use crate::machine::Machine;
use crate::said::Said;
use frames::read::read;
use rules::rule::Rule;
use scales::scale::Scale;
use search::search::Search;
use sheets::sheet::Sheet;
use track::refusal::Refusal;

impl<R: Rule, S: Scale, Q: Search<S>> Machine<R, S, Q> {
    ghost use Rattle.std.specs.Prelude.{List, [], ◌∷◌, ◌++◌, length};
    ghost use Rattle.planner.specs.History.{meaning};
    ghost use Rattle.frames.specs.Frames.{read_as};
    ghost use Rattle.machine.specs.Phases.{reply_of, numbers_in, steps_asked, TellsPlan, DeclinedAsRead};
    ghost use Rattle.machine.specs.Lines.{LineEvent, line_event, LineStep, LineHistory, PlansAsRead, DeclinedLeaves};
    ghost use Rattle.machine.specs.Printing.{PrintsByTheLines};

    // Does the frame of a line, given without its ending 0A, or says why it is declined.
    // Never inlined: an intake would then set up what a line needs for each byte.
    #[inline(never)]
    pub fn line(
        &mut self,
        line: &[u8],
        cells: &mut [Option<S::Cost>],
        sheet: &mut Sheet,
    ) -> Result<Said<S::Cost>, Refusal>
        ensures after_any_lines_the_rules_are_followed_and_a_sheet_is_lawful_cheapest_and_first { let k =
            meaning R.Rule.conflicts S.Scale.measure Q.Search.takes in
            let done = line_event line.now (length cells.old) (reply_of result) sheet.old sheet.new in
            (rule : R) (scale : S) (below : Q) → LineStep k rule scale below self.old done self.new }
        ensures a_history_of_lines_goes_on_with_the_line { let k =
            meaning R.Rule.conflicts S.Scale.measure Q.Search.takes in
            let done = line_event line.now (length cells.old) (reply_of result) sheet.old sheet.new in
            (rule : R) (scale : S) (below : Q) (es : List (LineEvent S.Cost)) → LineHistory k rule scale below es self.old
            → LineHistory k rule scale below (es ++ (done ∷ [])) self.new }
        ensures a_plan_is_told_with_the_trains_the_steps_asked_for_and_the_sheet { TellsPlan
            (numbers_in self.old.phase) (steps_asked line.now) sheet.new result }
        ensures after_any_lines_the_reply_prints_what_they_come_to { let k =
            meaning R.Rule.conflicts S.Scale.measure Q.Search.takes in
            let done = line_event line.now (length cells.old) (reply_of result) sheet.old sheet.new in
            (rule : R) (scale : S) (below : Q) → PrintsByTheLines k rule scale below self.old result done }
        ensures a_line_that_is_no_frame_is_declined_as_it_is_read { DeclinedAsRead line.now result }
        ensures only_a_line_that_asks_for_a_plan_plans { PlansAsRead
            (length cells.old) (read_as line.now) self.old.phase self.new.phase cells.old cells.new }
        ensures a_declined_line_changes_nothing_unless_planning_declined_it { DeclinedLeaves
            result self.old self.new cells.old cells.new sheet.old sheet.new }
    {
        match read(line) {
            Ok(frame) => self.turn(frame, cells, sheet),
            Err(refusal) => Err(refusal),
        }
    }
}

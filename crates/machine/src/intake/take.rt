use crate::intake::Intake;
use crate::said::Said;
use rules::rule::Rule;
use scales::scale::Scale;
use search::search::Search;
use sheets::sheet::Sheet;
use track::refusal::Refusal;

impl<R: Rule, S: Scale, Q: Search<S>> Intake<R, S, Q> {
    ghost use Rattle.std.specs.Prelude.{◌≡◌, ◌==◌, ℕ, List, None, [], not, true, false, is_some, length};
    ghost use Rattle.std.specs.Option.{ForSome};
    ghost use Rattle.frames.specs.Cuts.{begun_of, after};
    ghost use Rattle.frames.specs.Cutters.{cut_of};
    ghost use Rattle.frames.specs.Frames.{read_as};
    ghost use Rattle.sheets.specs.declared.sheet.Sheet.{Sheet};
    ghost use Rattle.planner.specs.History.{meaning};
    ghost use Rattle.machine.specs.Lines.{LineEvent, PlansAsRead, DeclinedLeaves};
    ghost use Rattle.machine.specs.Inputs.{InputHistory, ByteTaken, InputEnded};

    // Takes the next byte. Where it ends a line, the line is done, and this is its reply.
    // It stands in its caller's loop, and the line in a function of its own: most bytes only go to the cutter.
    #[inline(always)]
    pub fn byte(
        &mut self,
        byte: u8,
        cells: &mut [Option<S::Cost>],
        sheet: &mut Sheet,
    ) -> Option<Result<Said<S::Cost>, Refusal>>
        ensures a_line_is_done_and_answered_as_soon_as_it_is_ended { let k =
            meaning R.Rule.conflicts S.Scale.measure Q.Search.takes in
            (rule : R) (scale : S) (below : Q) (xs : List ℕ) (es : List (LineEvent S.Cost))
            → InputHistory k rule scale below xs es self.old
            → ByteTaken k rule scale below xs es byte (length cells.old) sheet.old sheet.new result self.new }
        ensures a_reply_is_told_just_where_a_line_is_ended { is_some result ≡ (byte == 10) }
        ensures the_cutter_takes_the_byte { cut_of self.new.cutter ≡ after (cut_of self.old.cutter) byte }
        ensures a_byte_that_ends_no_line_leaves_machine_cells_and_sheet { (byte == 10) ≡ false
            → (self.new.machine ≡ self.old.machine) × (cells.new ≡ cells.old) × (sheet.new ≡ sheet.old) }
        ensures only_a_line_that_asks_for_a_plan_plans { (byte == 10) ≡ true
            → PlansAsRead (length cells.old) (read_as (cut_of self.new.cutter).line)
            self.old.machine.phase self.new.machine.phase cells.old cells.new }
        ensures a_declined_line_changes_nothing_unless_planning_declined_it { ForSome result (λ said.
            DeclinedLeaves said self.old.machine self.new.machine cells.old cells.new sheet.old sheet.new) }
    {
        if !self.cutter.push(byte) {
            return None;
        }
        Some(self.machine.line(self.cutter.line(), cells, sheet))
    }

    // Takes the byte if it ends no line, and tells whether it did: 0A is left to `byte`.
    // That call makes room for a reply at every byte, which is most of what such a byte costs.
    #[inline(always)]
    pub fn within(&mut self, byte: u8) -> bool
        ensures whether_the_byte_ends_no_line { result ≡ not (byte == 10) }
        ensures a_byte_that_ends_no_line_is_taken { let k =
            meaning R.Rule.conflicts S.Scale.measure Q.Search.takes in
            (rule : R) (scale : S) (below : Q) (xs : List ℕ) (es : List (LineEvent S.Cost)) (cells : ℕ) (s : Sheet)
            → (byte == 10) ≡ false → InputHistory k rule scale below xs es self.old
            → ByteTaken k rule scale below xs es byte cells s s None self.new }
        ensures the_machine_stays { self.new.machine ≡ self.old.machine }
        ensures a_byte_that_ends_a_line_is_not_taken { (byte == 10) ≡ true → self.new ≡ self.old }
    {
        if byte == b'\n' {
            return false;
        }
        !self.cutter.push(byte)
    }

    // Ends the input. A line that has begun is its last: it is done as if 0A had ended it, and this is its
    // reply.
    // No line has begun afterwards, so the intake can go on with another input, or be let go.
    pub fn end(
        &mut self,
        cells: &mut [Option<S::Cost>],
        sheet: &mut Sheet,
    ) -> Option<Result<Said<S::Cost>, Refusal>>
        ensures every_line_of_the_input_is_done_and_answered { let k =
            meaning R.Rule.conflicts S.Scale.measure Q.Search.takes in
            (rule : R) (scale : S) (below : Q) (xs : List ℕ) (es : List (LineEvent S.Cost))
            → InputHistory k rule scale below xs es self.old
            → InputEnded k rule scale below xs es (length cells.old) sheet.old sheet.new result self.new }
        ensures no_line_has_begun_afterwards { begun_of (cut_of self.new.cutter) ≡ [] }
        ensures a_reply_is_told_just_where_a_line_had_begun { is_some
            result ≡ not (length (begun_of (cut_of self.old.cutter)) == 0) }
        ensures nothing_changes_where_none_had_begun { (length
            (begun_of (cut_of self.old.cutter)) == 0) ≡ true
            → (self.new ≡ self.old) × (cells.new ≡ cells.old) × (sheet.new ≡ sheet.old) }
        ensures only_a_line_that_asks_for_a_plan_plans { is_some result ≡ true
            → PlansAsRead (length cells.old) (read_as (cut_of self.new.cutter).line)
            self.old.machine.phase self.new.machine.phase cells.old cells.new }
        ensures a_declined_line_changes_nothing_unless_planning_declined_it { ForSome result (λ said.
            DeclinedLeaves said self.old.machine self.new.machine cells.old cells.new sheet.old sheet.new) }
    {
        if !self.cutter.has_rest() {
            return None;
        }
        self.byte(b'\n', cells, sheet)
    }
}

use crate::machine::Machine;
use crate::phase::Phase;
use crate::planning::plan_trains;
use crate::said::Said;
use frames::frame::Frame;
use roster::train::Train;
use rules::rule::Rule;
use scales::scale::Scale;
use search::search::Search;
use sheets::sheet::Sheet;
use std::mem;
use track::refusal::Refusal;

impl<R: Rule, S: Scale, Q: Search<S>> Machine<R, S, Q> {
    ghost use Rattle.std.specs.Prelude.{◌≡◌, Some, Ok, length};
    ghost use Rattle.sheets.specs.declared.sheet.Sheet.{Sheet};
    ghost use Rattle.frames.specs.Frames.{frame_of};
    ghost use Rattle.planner.specs.Promise.Reply.{accepted};
    ghost use Rattle.planner.specs.History.{meaning};
    ghost use Rattle.machine.specs.Asked.{asked_by, field};
    ghost use Rattle.machine.specs.Asked.Asked.{finish};
    ghost use Rattle.machine.specs.Phases.{reply_of, numbers_in, TellsPlan};
    ghost use Rattle.machine.specs.Lines.{TurnOwes, OnlyAPlanPlans, DeclinedLeaves};
    ghost use Rattle.machine.specs.declared.desk.Desk.{Desk};
    ghost use Rattle.machine.specs.declared.phase.Phase.TheVariants.{Drawing as IsDrawing};
    ghost use Rattle.machine.specs.declared.said.Said.TheVariants.{Done};

    // Does what a frame asks for, before the finish at the drawing, after it at the planner. A frame on the
    // wrong side of the finish is declined.
    // Clauses name the meaning of a planner each time, for the reason that stands at `Planner`.
    #[tactic(auto, using(crate::proofs::Turning::no_plan))]
    pub(crate) fn turn(
        &mut self,
        frame: Frame,
        cells: &mut [Option<S::Cost>],
        sheet: &mut Sheet,
    ) -> Result<Said<S::Cost>, Refusal>
        ensures the_rules_are_followed { let k =
            meaning R.Rule.conflicts S.Scale.measure Q.Search.takes in
            let asked = asked_by (length cells.old) (frame_of frame.entry) in
            (rule : R) (scale : S) (below : Q)
            → TurnOwes k rule scale below self.old.phase asked (reply_of result) sheet.old sheet.new self.new.phase }
        ensures a_plan_is_told_with_the_trains_the_steps_asked_for_and_the_sheet { TellsPlan
            (numbers_in self.old.phase) (field (frame_of frame.entry).1 0) sheet.new result }
        ensures only_a_frame_that_asks_for_a_plan_plans { let asked = asked_by (length cells.old) (frame_of frame.entry) in
            OnlyAPlanPlans asked self.old.phase self.new.phase cells.old cells.new }
        ensures a_declined_frame_changes_nothing_unless_planning_declined_it { DeclinedLeaves
            result self.old self.new cells.old cells.new sheet.old sheet.new }
    {
        match (&mut self.phase, frame) {
            (Some(Phase::Drawing(desk)), Frame::AddSections(part)) => {
                desk.add_sections(part.byte(0)).and(Ok(Said::Done))
            }
            (Some(Phase::Drawing(desk)), Frame::Link(part)) => {
                desk.add_link(part.byte(0), part.byte(1), part.byte(2))
                    .and(Ok(Said::Done))
            }
            (Some(Phase::Drawing(desk)), Frame::Foul(part)) => {
                desk.add_foul(part.byte(0), part.byte(1), part.byte(2), part.byte(3))
                    .and(Ok(Said::Done))
            }
            (Some(Phase::Drawing(_)), Frame::Finish(_)) => self.finish(),
            (Some(Phase::Planning(planner)), Frame::Enter(part)) => {
                let answer = planner.enter(Train {
                    number: part.number(0),
                    start: part.byte(2),
                    goal: part.byte(3),
                });
                answer.and(Ok(Said::Done))
            }
            (Some(Phase::Planning(planner)), Frame::Withdraw(part)) => {
                planner.withdraw(part.number(0)).and(Ok(Said::Done))
            }
            (Some(Phase::Planning(planner)), Frame::Plan(part)) => {
                plan_trains(planner, usize::from(part.byte(0)), cells, sheet)
            }
            _ => Err(Refusal::WrongSideOfFinish),
        }
    }

    // Ends the drawing: from here on there is a planner on what was drawn.
    fn finish(&mut self) -> Result<Said<S::Cost>, Refusal>
        requires nothing_is_finished { (d : Desk R S Q) × (self.old.phase ≡ Some (IsDrawing d)) }
        ensures it_is_done { result ≡ Ok Done }
        ensures the_rules_are_followed { let k =
            meaning R.Rule.conflicts S.Scale.measure Q.Search.takes in
            (rule : R) (scale : S) (below : Q) (s : Sheet)
            → TurnOwes k rule scale below self.old.phase finish accepted s s self.new.phase }
    {
        match self.phase.take() {
            Some(Phase::Drawing(desk)) => {
                match mem::replace(&mut self.phase, Some(Phase::Planning(desk.finish()))) {
                    None => Ok(Said::Done),
                    Some(_) => unreachable!(),
                }
            }
            _ => unreachable!(),
        }
    }
}

ghost use Rattle.std.specs.Prelude.{Some, length};
ghost use Rattle.roster.specs.Book.Call.{plan};
ghost use Rattle.roster.specs.Model.{held};
ghost use Rattle.frames.specs.Replies.{numbers_of};
ghost use Rattle.planner.specs.History.{meaning};
ghost use Rattle.machine.specs.Asked.Asked.{call};
ghost use Rattle.machine.specs.Phases.{reply_of, TellsPlan};
ghost use Rattle.machine.specs.Lines.{TurnOwes, DeclinedLeaves};
ghost use Rattle.machine.specs.declared.phase.Phase.TheVariants.{Planning as IsPlanning};

use crate::said::{Said, planned};
use planner::planner::Planner;
use rules::rule::Rule;
use scales::scale::Scale;
use search::search::Search;
use sheets::sheet::Sheet;
use track::refusal::Refusal;

// Plans the trains of a planner over so many steps, and tells what is printed of the plan.
// Apart from the match of phase and frame: a planner that is lent there, to the plan and then for its
// roster, would be one of which a proof knows nothing.
pub(crate) fn plan_trains<R: Rule, S: Scale, Q: Search<S>>(
    planner: &mut Planner<R, S, Q>,
    steps: usize,
    cells: &mut [Option<S::Cost>],
    sheet: &mut Sheet,
) -> Result<Said<S::Cost>, Refusal>
    ensures the_rules_are_followed { let k =
        meaning R.Rule.conflicts S.Scale.measure Q.Search.takes in
        let asked = call (plan steps (length cells.old)) in
        (rule : R) (scale : S) (below : Q)
        → TurnOwes k rule scale below (Some (IsPlanning planner.old)) asked (reply_of result)
        sheet.old sheet.new (Some (IsPlanning planner.new)) }
    ensures the_plan_is_as_it_was_made { TellsPlan
        (numbers_of (held planner.old.roster)) steps sheet.new result }
    ensures a_declined_plan_changes_nothing_unless_planning_declined_it { DeclinedLeaves
        result planner.old planner.new cells.old cells.new sheet.old sheet.new }
{
    let answer = planner.plan(steps, cells, sheet);
    planned(answer, planner.roster(), steps, sheet)
}

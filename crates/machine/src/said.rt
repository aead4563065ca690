ghost use Rattle.std.specs.Prelude.{◌≡◌, ◌≤◌, IfOk};
ghost use Rattle.roster.specs.Model.{held};
ghost use Rattle.frames.specs.Replies.{numbers_of};
ghost use Rattle.planner.specs.History.{says_plan};
ghost use Rattle.machine.specs.Phases.{reply_of, TellsPlan};

use frames::plan::Plan;
use roster::roster::Roster;
use sheets::sheet::Sheet;
use track::refusal::Refusal;

// The reply to a line that is not declined. No Option: `Done` is a reply, which `None` would not say.
#[derive(Drop)]
pub enum Said<C> {
    Done,
    // what is printed of the plan that was made: it stays so, whatever the lines after it do
    Planned(Plan<C>),
}

// The reply to a plan of the trains of a roster over so many steps, by the answer of the planner and the
// sheet that it left.
pub(crate) fn planned<C>(
    answer: Result<(C, usize), Refusal>,
    roster: &Roster,
    steps: usize,
    sheet: &Sheet,
) -> Result<Said<C>, Refusal>
    requires at_most_eight_groups { IfOk answer (λ p. p.1 ≤ 8) }
    requires at_most_sixteen_steps { IfOk answer (λ p. steps ≤ 16) }
    ensures it_tells_the_answer { reply_of result ≡ says_plan answer }
    ensures the_plan_is_as_it_was_made { TellsPlan (numbers_of (held roster.now)) steps sheet.now result }
{
    let (cost, groups) = answer?;
    // the cast is proved to lose nothing
    let plan = Plan::new(roster, steps, sheet, cost, groups as u8);
    Ok(Said::Planned(plan))
}

ghost use Rattle.std.specs.Prelude.{◌≡◌, ◌*◌, ◌≤◌, length, take};
ghost use Rattle.words.specs.Tasks.{task, best_from, SolutionFor};
ghost use Rattle.table.specs.Steps.{Can};

use crate::ahead::Ahead;
use crate::step::joint_step;
use rules::rule::Rule;
use scales::scale::Scale;
use words::found::Found;
use words::rests::Rests;

// The best word from the start on, if there is a way to go.
fn plan_of<S: Scale, R: Rule, N: Rests<S::Cost>>(
    ahead: &Ahead<S, R, N>,
    room: &mut [Option<S::Cost>],
) -> [u8; 128]
    requires a_run_for_each_train { 33 * ahead.now.group.now.board.trains ≤ length room.old }
    requires all_are_known { ahead.now.group.now.steps ≤ ahead.now.most }
    requires can { Can (S.Scale.measure ahead.now.group.now.board.scale.now) (task R.Rule.conflicts ahead.now.group.now.board) ahead.now.group.now.steps ahead.now.group.now.start }
    ensures the_best_word { take (ahead.now.group.now.board.trains * ahead.now.group.now.steps) result ≡ best_from (S.Scale.measure ahead.now.group.now.board.scale.now) (task R.Rule.conflicts ahead.now.group.now.board) ahead.now.group.now.steps ahead.now.group.now.start }
{
    let mut plan = [0; 128];
    let mut at = ahead.group.start;
    // by the step: after a loop over `chunks_exact_mut` a proof knows no row that it wrote
    for t in 0..ahead.group.steps {
        at = joint_step(ahead, ahead.group.steps - 1 - t, at, room);
        let base = ahead.group.board.trains * t;
        plan[base..base + ahead.group.board.trains].copy_from_slice(
            &at[..ahead.group.board.trains],
        );
    }
    plan
}

// The best sheet, read off the costs of the rest, whoever worked them out.
pub(crate) fn read_off<S: Scale, R: Rule, N: Rests<S::Cost>>(
    ahead: &Ahead<S, R, N>,
    room: &mut [Option<S::Cost>],
) -> Option<Found<S::Cost>>
    requires a_run_for_each_train { 33 * ahead.now.group.now.board.trains ≤ length room.old }
    requires all_are_known { ahead.now.group.now.steps ≤ ahead.now.most }
    ensures the_least_cost_and_the_first_sheet_that_has_it { SolutionFor R.Rule.conflicts S.Scale.measure ahead.now.group.now result }
{
    let group = ahead.group;
    let cost = ahead.rest(group.steps, group.start)?;
    Some(Found {
        cost,
        plan: plan_of(ahead, room),
    })
}

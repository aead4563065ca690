ghost use Rattle.std.specs.Prelude.{◌≡◌, ◌<◌};
ghost use Rattle.words.specs.Tasks.{task, SolutionFor};
ghost use Rattle.walk.specs.Walks.{Ready, Walked};

use crate::spot::Spot;
use rules::rule::Rule;
use scales::scale::Scale;
use words::found::Found;
use words::group::Group;
use words::turn::Turn;

// Of the sheets that go on from here, the first of the least, if with what is spent so far it costs less than the bound.
fn explore<S: Scale, R: Rule>(
    group: &Group<S, R>,
    spot: Spot<S::Cost>,
    bound: Option<S::Cost>,
) -> Option<Found<S::Cost>>
    requires { Ready (S.Scale.measure group.now.board.scale.now) (task R.Rule.conflicts group.now.board) spot }
    ensures the_best_that_stays_below_the_bound { Walked (S.Scale.measure group.now.board.scale.now) (task R.Rule.conflicts group.now.board) spot bound result }
{
    if bound.is_some_and(|b| !group.board.scale.lower(spot.sofar, b)) {
        return None;
    }
    if spot.turn.moved == group.board.trains {
        if spot.turn.left > 0 {
            return explore(group, spot.next_step(), bound);
        }
        return group.board.all_home(spot.turn.to).then(|| Found {
            cost: spot.sofar,
            plan: [0; 128],
        });
    }
    let mut best: Option<Found<S::Cost>> = None;
    for x in 0..group.board.layout.sections() {
        if group.board.may_move(&spot.turn, x) {
            let price = group.board.move_price(&spot.turn, x);
            let next = spot.after(x, group.board.scale.join(spot.sofar, price));
            let nearer = best.as_ref().map(|f| f.cost).or(bound);
            // the section is written in place, since a plan is long to copy at every turn
            if let Some(mut found) = explore(group, next, nearer) {
                found.plan[spot.place] = x;
                best = Some(found);
            }
        }
    }
    best
}

// The first of the least of the group's sheets.
pub(crate) fn best_of<S: Scale, R: Rule>(group: &Group<S, R>) -> Option<Found<S::Cost>>
    ensures the_least_cost_and_the_first_word_of_it { SolutionFor R.Rule.conflicts S.Scale.measure group.now result }
{
    let first = Spot {
        turn: Turn::begin(group.steps - 1, group.start),
        place: 0,
        sofar: group.board.scale.nothing(),
    };
    explore(group, first, None)
}

ghost use Rattle.std.specs.Prelude.{◌≡◌, ◌+◌, ◌-◌, ◌*◌, ◌<◌, ◌≤◌, length};
ghost use Rattle.words.specs.Rests.{On};
ghost use Rattle.words.specs.Tasks.{task};
ghost use Rattle.words.specs.Turns.{move_cost, rest_of};
ghost use Rattle.table.specs.Steps.{Ready, Picked, Can, Stepped};

use crate::ahead::Ahead;
use crate::candidates::candidates;
use crate::pick::Pick;
use rules::rule::Rule;
use scales::least::first_least;
use scales::scale::Scale;
use words::rests::Rests;
use words::turn::Turn;

// `Ready` is asked of each turn, and is no invariant: each call moves the turn on, so a struct of a turn and what is known of it would be
// made anew in each, and its invariant be proved there as the `requires` is. The measure and the task of the group stand in each clause,
// since a word for both would only name them, and each definition takes them apart.

// The least cost of the rest of a step from here on, and of all that is still to come.
#[cycle(step)]
pub(crate) fn least_rest<S: Scale, R: Rule, N: Rests<S::Cost>>(
    ahead: &Ahead<S, R, N>,
    turn: Turn,
    room: &mut [Option<S::Cost>],
) -> Option<S::Cost>
    requires ready { Ready (task R.Rule.conflicts ahead.now.group.now.board) ahead.now.most turn }
    requires a_run_for_each_train_yet_to_move { 33 * (ahead.now.group.now.board.trains - turn.moved) ≤ length room.old }
    ensures the_least_cost_of_the_rest { result ≡ rest_of (S.Scale.measure ahead.now.group.now.board.scale.now) (task R.Rule.conflicts ahead.now.group.now.board) turn }
{
    if turn.moved == ahead.group.board.trains {
        return ahead.rest(turn.left, turn.to);
    }
    best_move(ahead, turn, room).map(|pick| pick.cost)
}

// What the move of the next train to x costs with all that is still to come, if it may be made.
#[cycle(step)]
fn move_cost<S: Scale, R: Rule, N: Rests<S::Cost>>(
    ahead: &Ahead<S, R, N>,
    turn: Turn,
    x: u8,
    room: &mut [Option<S::Cost>],
) -> Option<S::Cost>
    requires ready { Ready (task R.Rule.conflicts ahead.now.group.now.board) ahead.now.most turn }
    requires yet_to_move { turn.moved < ahead.now.group.now.board.trains }
    requires a_run_for_each_train_after_it { 33 * (ahead.now.group.now.board.trains - (turn.moved + 1)) ≤ length room.old }
    requires inside { x < (task R.Rule.conflicts ahead.now.group.now.board).sections }
    ensures the_price_joined_with_the_rest { result ≡ move_cost (S.Scale.measure ahead.now.group.now.board.scale.now) (task R.Rule.conflicts ahead.now.group.now.board) turn x }
{
    let group = ahead.group;
    if !group.board.may_move(&turn, x) {
        return None;
    }
    let rest = least_rest(ahead, turn.after(x), room)?;
    let price = group.board.move_price(&turn, x);
    Some(group.board.scale.join(price, rest))
}

// The best move of the next train: the least of its price and of what is still to come,
// and the lowest section that makes it up.
#[cycle(step)]
pub(crate) fn best_move<S: Scale, R: Rule, N: Rests<S::Cost>>(
    ahead: &Ahead<S, R, N>,
    turn: Turn,
    room: &mut [Option<S::Cost>],
) -> Option<Pick<S::Cost>>
    requires ready { Ready (task R.Rule.conflicts ahead.now.group.now.board) ahead.now.most turn }
    requires yet_to_move { turn.moved < ahead.now.group.now.board.trains }
    requires a_run_for_each_train_yet_to_move { 33 * (ahead.now.group.now.board.trains - turn.moved) ≤ length room.old }
    ensures the_least_and_the_first_that_makes_it_up { Picked (S.Scale.measure ahead.now.group.now.board.scale.now) (task R.Rule.conflicts ahead.now.group.now.board) turn result }
{
    let group = ahead.group;
    let tries = candidates(group.board.layout, turn.at[turn.moved]);
    let sections = tries.items();
    // a run of cells, one for each try, and the room of the trains after this one; a cell is written by its place,
    // since after a loop over a zip with `iter_mut` a proof knows no cell that it wrote
    let (run, rest) = room.split_at_mut(33);
    for (i, x) in sections.iter().enumerate() {
        run[i] = move_cost(ahead, turn, *x, rest);
    }
    let (place, cost) = first_least(group.board.scale, &run[..sections.len()])?;
    Some(Pick {
        cost,
        section: sections[place],
    })
}

// The joint step to take from here: of those whose price and rest make up the least cost the first,
// by the section of the first train, then of the next.
pub(crate) fn joint_step<S: Scale, R: Rule, N: Rests<S::Cost>>(
    ahead: &Ahead<S, R, N>,
    left: usize,
    at: [u8; 8],
    room: &mut [Option<S::Cost>],
) -> [u8; 8]
    requires so_many_are_known { left ≤ ahead.now.most }
    requires on_the_layout { On (task R.Rule.conflicts ahead.now.group.now.board) ahead.now.group.now.board.trains at }
    requires a_run_for_each_train { 33 * ahead.now.group.now.board.trains ≤ length room.old }
    requires can { Can (S.Scale.measure ahead.now.group.now.board.scale.now) (task R.Rule.conflicts ahead.now.group.now.board) (left + 1) at }
    ensures the_best_word_goes_on_from_there { Stepped (S.Scale.measure ahead.now.group.now.board.scale.now) (task R.Rule.conflicts ahead.now.group.now.board) left at result }
{
    let mut turn = Turn::begin(left, at);
    for _ in 0..ahead.group.board.trains {
        let pick = best_move(ahead, turn, room).unwrap();
        turn = turn.after(pick.section);
    }
    turn.to
}

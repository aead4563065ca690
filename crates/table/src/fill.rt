ghost use Rattle.std.specs.Prelude.{◌≡◌, ◌+◌, ◌*◌, ◌<◌, ◌≤◌, length};
ghost use Rattle.words.specs.Tasks.{task};
ghost use Rattle.table.specs.Columns.{due, Column, Columns};

use crate::ahead::Ahead;
use crate::filled::Filled;
use crate::positions::Positions;
use crate::step::least_rest;
use rules::rule::Rule;
use scales::scale::Scale;
use words::turn::Turn;

// The loops of the next two stay apart: one function for both would take a closure, and its contract would have to say of every position
// what the closure gives there, which is longer than a loop of two lines.

// The column of no steps left: nothing is left to pay at the goals, and there is no way elsewhere.
fn fill_last<S: Scale, R: Rule>(positions: &Positions<S, R>, column: &mut [Option<S::Cost>])
    requires a_cell_each { length column.old ≡ positions.now.count }
    ensures the_column_is_filled { Column (S.Scale.measure positions.now.group.now.board.scale.now) (task R.Rule.conflicts positions.now.group.now.board) 0 positions.now.count column.new }
{
    let board = &positions.group.board;
    for (code, cell) in column.iter_mut().enumerate() {
        let at = positions.decode(code);
        *cell = board.all_home(at).then(|| board.scale.nothing());
    }
}

// The column of one step more than `left`, by the columns up to that.
fn fill_next<S: Scale, R: Rule>(
    filled: &Filled<S, R, S::Cost>,
    left: usize,
    column: &mut [Option<S::Cost>],
    room: &mut [Option<S::Cost>],
)
    requires a_run_for_each_train { 33 * filled.now.positions.now.group.now.board.trains ≤ length room.old }
    requires cells { left * filled.now.positions.now.count + filled.now.positions.now.count ≤ length filled.now.cells.now }
    requires columns { Columns (S.Scale.measure filled.now.positions.now.group.now.board.scale.now) (task R.Rule.conflicts filled.now.positions.now.group.now.board) left filled.now.positions.now.count filled.now.cells.now }
    requires a_cell_each { length column.old ≡ filled.now.positions.now.count }
    ensures the_column_is_filled { Column (S.Scale.measure filled.now.positions.now.group.now.board.scale.now) (task R.Rule.conflicts filled.now.positions.now.group.now.board) (left + 1) filled.now.positions.now.count column.new }
{
    let ahead = Ahead {
        group: filled.positions.group,
        rests: filled,
        most: left,
    };
    for (code, cell) in column.iter_mut().enumerate() {
        let at = filled.positions.decode(code);
        *cell = least_rest(&ahead, Turn::begin(left, at), room);
    }
}

// Works out the cost still to come, last time first: one cell for each time and each joint position.
pub(crate) fn fill<S: Scale, R: Rule>(
    positions: &Positions<S, R>,
    cells: &mut [Option<S::Cost>],
    room: &mut [Option<S::Cost>],
)
    requires a_run_for_each_train { 33 * positions.now.group.now.board.trains ≤ length room.old }
    requires cells { positions.now.group.now.steps * positions.now.count + positions.now.count ≤ length cells.old }
    ensures every_cell_has_the_least_cost_of_the_rest { Columns (S.Scale.measure positions.now.group.now.board.scale.now) (task R.Rule.conflicts positions.now.group.now.board) positions.now.group.now.steps positions.now.count cells.new }
{
    fill_last(positions, &mut cells[..positions.count]);
    for left in 0..positions.group.steps {
        let (done, rest) = cells.split_at_mut((left + 1) * positions.count);
        let filled = Filled {
            cells: done,
            positions,
        };
        fill_next(&filled, left, &mut rest[..positions.count], room);
    }
}

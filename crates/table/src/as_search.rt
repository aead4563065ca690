ghost use Rattle.std.specs.Prelude.{◌≡◌, ◌+◌, ◌*◌, ◌^◌, ◌≤◌, Err, length};
ghost use Rattle.search.specs.Answers.{SameMeaning, Answered};
ghost use Rattle.search.specs.declared.answer.Unplanned.TheVariants.{BeyondReach};
ghost use Rattle.sheets.specs.Inquiry.{inquired, trains};
ghost use Rattle.words.specs.Tasks.{SolutionFor};
ghost use Rattle.table.specs.Columns.{Enough, KeptFrom};
ghost use Rattle.table.specs.OneTrain.{one_train_lem};

use crate::ahead::Ahead;
use crate::fill::fill;
use crate::filled::Filled;
use crate::positions::Positions;
use crate::read::read_off;
use crate::table::Table;
use rules::rule::Rule;
use scales::scale::Scale;
use search::answer::{Answer, Unplanned};
use search::search::Search;
use sheets::asked::Asked;
use sheets::sheet::Sheet;
use words::found::Found;
use words::group::Group;

// The first of the least of the group's sheets, by a worksheet with a cell for each time and each joint position.
fn best_of<S: Scale, R: Rule>(
    positions: &Positions<S, R>,
    cells: &mut [Option<S::Cost>],
    room: &mut [Option<S::Cost>],
) -> Option<Found<S::Cost>>
    requires a_run_for_each_train { 33 * positions.now.group.now.board.trains ≤ length room.old }
    requires cells { positions.now.count * (positions.now.group.now.steps + 1) ≤ length cells.old }
    ensures the_least_cost_and_the_first_sheet_that_has_it { SolutionFor R.Rule.conflicts S.Scale.measure positions.now.group.now result }
{
    fill(positions, cells, room);
    let ahead = Ahead {
        group: positions.group,
        rests: &Filled { cells, positions },
        most: positions.group.steps,
    };
    read_off(&ahead, room)
}

impl<S: Scale> Search<S> for Table<S::Cost> {
    // it takes a group exactly if there is a cell for each time and each joint position of its trains
    ghost takes = { λ _ i cells. Enough i cells };

    ghost one_train = { λ s i cells h. one_train_lem i cells h };

    // It asks in the first of the cells.
    fn search<R: Rule>(
        &mut self,
        asked: &Asked<R, S>,
        cells: &mut [Option<S::Cost>],
        sheet: &mut Sheet,
    ) -> Answer<S::Cost>
        ensures asking_leaves_the_meaning { SameMeaning (⟦<Table<S::Cost> as Search<S>>⟧.takes self.new)
            (⟦<Table<S::Cost> as Search<S>>⟧.takes self.old) }
        ensures the_answer_is_right { let asks = inquired R.Rule.conflicts S.Scale.measure asked.now in
            let taken = ⟦<Table<S::Cost> as Search<S>>⟧.takes self.old asks (length cells.old) in
            Answered asks taken sheet.old sheet.new result }
        ensures its_meaning_is_a_cell_for_each_time_and_each_joint_position { SameMeaning
            (⟦<Table<S::Cost> as Search<S>>⟧.takes self.old) Enough }
        ensures the_cells_beyond_its_own_are_left_alone { let asks = inquired R.Rule.conflicts S.Scale.measure asked.now in
            let used = asks.problem.sections ^ trains asks * (asks.problem.steps + 1) in
            KeptFrom used cells.old cells.new }
        ensures beyond_reach_all_cells_are_left_alone { result ≡ Err BeyondReach → cells.new ≡ cells.old }
    {
        let group = Group::of(asked);
        let positions = Positions::of(&group);
        let used = positions.count * (group.steps + 1);
        if used > cells.len() {
            return Err(Unplanned::BeyondReach);
        }
        let found = best_of(&positions, &mut cells[..used], &mut self.room);
        group.answer(found, sheet)
    }
}

ghost use Rattle.std.specs.Prelude.{◌≡◌, ℕ, ◌≤◌};
ghost use Rattle.sheets.specs.Inquiry.{Inquiry, inquired, trains};
ghost use Rattle.sheets.specs.Theorems.{Same};
ghost use Rattle.search.specs.Answers.{SameMeaning, Answered};
ghost use Rattle.walk.specs.OneTrain.{one_train_lem};

use crate::explore::best_of;
use crate::walk::Walk;
use rules::rule::Rule;
use scales::scale::Scale;
use search::answer::{Answer, Unplanned};
use search::search::Search;
use sheets::asked::Asked;
use sheets::sheet::Sheet;
use words::group::Group;

impl<S: Scale> Search<S> for Walk {
    // it takes the groups up to its greatest, and uses no cell
    ghost takes = { λ w i _. trains i ≤ w.most };

    ghost one_train = { λ w i cells h. one_train_lem w i cells h };

    fn search<R: Rule>(
        &mut self,
        asked: &Asked<R, S>,
        cells: &mut [Option<S::Cost>],
        sheet: &mut Sheet,
    ) -> Answer<S::Cost>
        ensures asking_leaves_the_meaning { let takes = ⟦<Walk as Search<S>>⟧.takes in
            SameMeaning (takes self.new) (takes self.old) }
        ensures the_answer_is_right { let i = inquired R.Rule.conflicts S.Scale.measure asked.now in
            Answered i (trains i ≤ self.old.most) sheet.old sheet.new result }
        ensures it_takes_the_groups_up_to_its_greatest { (i : Inquiry S.Cost) (cells : ℕ) →
            Same (⟦<Walk as Search<S>>⟧.takes self.old i cells) (trains i ≤ self.old.most) }
        ensures the_walk_stays_as_it_was { self.new ≡ self.old }
        ensures no_cell_is_used { cells.new ≡ cells.old }
    {
        // the walk works without a worksheet
        let _ = cells;
        let group = Group::of(asked);
        if group.board.trains > self.most {
            return Err(Unplanned::BeyondReach);
        }
        group.answer(best_of(&group), sheet)
    }
}

ghost use Rattle.std.specs.Prelude.{◌≡◌, ◌<◌, true, ◌⊎◌, length};
ghost use Rattle.rules.specs.Conflicts.{Conflicts};
ghost use Rattle.roster.specs.Model.{rows_of};
ghost use Rattle.sheets.specs.Inquiry.{problem_asked, inquired};
ghost use Rattle.sheets.specs.Posing.{marked};
ghost use Rattle.sheets.specs.Theorems.{Same};
ghost use Rattle.search.specs.Answers.{SameMeaning, Answered};
ghost use Rattle.single_check.specs.Ways.{StuckTrain, StuckIn, Stuck};
ghost use Rattle.std.proofs.Common.{rules};

use crate::check::Check;
use crate::reach::fewest_steps;
use rules::rule::Rule;
use scales::scale::Scale;
use search::answer::{Answer, Unplanned};
use search::search::Search;
use sheets::asked::Asked;
use sheets::question::Question;
use sheets::sheet::Sheet;

// Whether the train of a row is of the group, and alone cannot reach its goal.
fn is_stuck(question: &Question, row: usize) -> bool
    requires { row < rows_of question.now.roster.now }
    ensures true_exactly_if_the_train_is_stuck { (k : Conflicts) → Same (result ≡ true) (StuckTrain (problem_asked k question.now) (marked question.now.group) row) }
{
    let member = question.group[row];
    member && fewest_steps(question, row).is_none()
}

// Whether some train of the group alone cannot reach its goal.
fn some_train_is_stuck(question: &Question) -> bool
    ensures true_exactly_if_some_train_is_stuck { (k : Conflicts) → Same (result ≡ true) (StuckIn (problem_asked k question.now) (marked question.now.group)) }
{
    (0..question.roster.count()).any(|row| is_stuck(question, row))
}

impl<S: Scale, Q: Search<S>> Search<S> for Check<Q> {
    // it takes the groups with a stuck train, and those that are taken below
    ghost takes = { λ s i cells. Stuck i ⊎ Q.Search.takes s.below i cells };

    ghost one_train = { Prim.search rules };

    fn search<R: Rule>(
        &mut self,
        asked: &Asked<R, S>,
        cells: &mut [Option<S::Cost>],
        sheet: &mut Sheet,
    ) -> Answer<S::Cost>
        ensures asking_leaves_the_meaning { let takes = ⟦<Check<Q> as Search<S>>⟧.takes in
            SameMeaning (takes self.new) (takes self.old) }
        ensures the_answer_is_right { let i = inquired R.Rule.conflicts S.Scale.measure asked.now in
            Answered i (⟦<Check<Q> as Search<S>>⟧.takes self.old i (length cells.old)) sheet.old sheet.new result }
        ensures it_takes_the_groups_with_a_stuck_train_and_those_taken_below { let takes =
            ⟦<Check<Q> as Search<S>>⟧.takes in
            SameMeaning (takes self.old) (λ i cells. Stuck i ⊎ Q.Search.takes self.old.below i cells) }
        ensures where_a_train_is_stuck_there_is_no_sheet { let i =
            inquired R.Rule.conflicts S.Scale.measure asked.now in
            Stuck i → result ≡ Err Unplanned.NoSheet }
        ensures where_a_train_is_stuck_it_asks_nothing_and_changes_nothing { let i =
            inquired R.Rule.conflicts S.Scale.measure asked.now in
            Stuck i → (self.new ≡ self.old) × (cells.new ≡ cells.old) × (sheet.new ≡ sheet.old) }
        ensures where_no_train_is_stuck_the_answer_is_that_of_below { let i =
            inquired R.Rule.conflicts S.Scale.measure asked.now in
            (Stuck i → ⊥) → Answered i (Q.Search.takes self.old.below i (length cells.old)) sheet.old sheet.new result }
    {
        if some_train_is_stuck(asked.question) {
            return Err(Unplanned::NoSheet);
        }
        self.below.search(asked, cells, sheet)
    }
}

ghost use Rattle.std.specs.Prelude.{◌≡◌, length};
ghost use Rattle.sheets.specs.Inquiry.{inquired};
ghost use Rattle.search.specs.Answers.{SameMeaning};
ghost use Rattle.grouping.specs.Ends.{Told, OneOutcome, ExistsWhereDecided, RightForAll, BestTogether, NoneForAll};

use crate::grouping::Grouping;
use crate::joining::follow;
use rules::rule::Rule;
use scales::scale::Scale;
use search::answer::Answer;
use search::search::Search;
use sheets::asked::Asked;
use sheets::sheet::Sheet;

impl<Q> Grouping<Q> {
    // A grouping over a search. `Check` has the like: the type of a layer tells which it is, and a shared constructor would be no plainer.
    pub fn over(below: Q) -> Grouping<Q>
        ensures it_asks_that_search { result.below ≡ below }
    {
        Grouping { below }
    }

    // Plans the question's group by the course of the grouping: the cost of the best sheet, which is written, and the number of groups reached.
    pub fn plan<S: Scale, R: Rule>(
        &mut self,
        asked: &Asked<R, S>,
        cells: &mut [Option<S::Cost>],
        sheet: &mut Sheet,
    ) -> Answer<(S::Cost, usize)>
    where
        Q: Search<S>,
        ensures asking_leaves_the_meaning { SameMeaning (Q.Search.takes self.new.below) (Q.Search.takes self.old.below) }
        ensures the_answer_is_how_the_course_ends { Told (Q.Search.takes self.old.below) (inquired R.Rule.conflicts S.Scale.measure asked.now) (length cells.old) sheet.old sheet.new result }
        ensures a_course_has_one_outcome { OneOutcome (Q.Search.takes self.old.below) (inquired R.Rule.conflicts S.Scale.measure asked.now) (length cells.old) }
        ensures a_course_exists_where_taking_is_decided { ExistsWhereDecided (Q.Search.takes self.old.below) (inquired R.Rule.conflicts S.Scale.measure asked.now) (length cells.old) }
        ensures what_a_course_ends_with_is_right_for_the_whole_group { RightForAll (Q.Search.takes self.old.below) (inquired R.Rule.conflicts S.Scale.measure asked.now) (length cells.old) }
        ensures best_sheets_of_groups_that_do_not_conflict_are_together_the_best { BestTogether (inquired R.Rule.conflicts S.Scale.measure asked.now) }
        ensures where_some_of_the_trains_have_no_lawful_sheet_all_have_none { NoneForAll (inquired R.Rule.conflicts S.Scale.measure asked.now) }
    {
        follow(&mut self.below, asked, cells, sheet)
    }
}

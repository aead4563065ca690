ghost use Rattle.std.specs.Prelude.{length};
ghost use Rattle.sheets.specs.Inquiry.{inquired};
ghost use Rattle.search.specs.Answers.{SameMeaning, Answered};
ghost use Rattle.groups.proofs.Single.{one_train_in_reach};
ghost use Rattle.grouping.specs.Ends.{about, taken, NeverBeyond};

use crate::grouping::Grouping;
use crate::joining::follow;
use rules::rule::Rule;
use scales::scale::Scale;
use search::answer::Answer;
use search::search::Search;
use sheets::asked::Asked;
use sheets::sheet::Sheet;

impl<S: Scale, Q: Search<S>> Search<S> for Grouping<Q> {
    // it takes a group exactly if its course never asks below for one that is not taken there
    ghost takes = { λ s i cells. NeverBeyond (Q.Search.takes s.below) i cells };

    ghost one_train = { λ s i cells h. one_train_in_reach i.measure i.problem i.group
        (taken (Q.Search.takes s.below) i cells) h.one
        (λ F one. Q.Search.one_train s.below (about i F) cells
        (record {
          one = one;
          few_sections = h.few_sections;
          some_steps = h.some_steps;
          few_steps = h.few_steps;
          room = h.room;
        })) };

    fn search<R: Rule>(
        &mut self,
        asked: &Asked<R, S>,
        cells: &mut [Option<S::Cost>],
        sheet: &mut Sheet,
    ) -> Answer<S::Cost>
        ensures asking_leaves_the_meaning { let takes = ⟦<Grouping<Q> as Search<S>>⟧.takes in
            SameMeaning (takes self.new) (takes self.old) }
        ensures the_answer_is_right { let i = inquired R.Rule.conflicts S.Scale.measure asked.now in
            Answered i (⟦<Grouping<Q> as Search<S>>⟧.takes self.old i (length cells.old)) sheet.old sheet.new result }
        ensures it_takes_a_group_exactly_if_its_course_asks_for_none_beyond_reach { let takes = ⟦<Grouping<Q> as Search<S>>⟧.takes in
            SameMeaning (takes self.old) (NeverBeyond (Q.Search.takes self.old.below)) }
    {
        let (cost, _) = follow(&mut self.below, asked, cells, sheet)?;
        Ok(cost)
    }
}

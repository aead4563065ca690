ghost use Rattle.std.specs.Prelude.{◌≡◌, ℕ, length};
ghost use Rattle.sheets.specs.Inquiry.{Inquiry, inquired};
ghost use Rattle.search.specs.Answers.{OneTrain, SameMeaning, Answered};

use crate::answer::Answer;
use rules::rule::Rule;
use scales::scale::Scale;
use sheets::asked::Asked;
use sheets::sheet::Sheet;

// A search for the best sheet of a group, under a scale. It works in a worksheet of cells, each of which holds one cost or none.
pub trait Search<S: Scale> {
    // its meaning: which groups it takes, given what is asked and the number of cells
    ghost takes: { Self → Inquiry S.Cost → ℕ → Type 0 };

    // Asks for the best sheet of the question's group under the rule, and writes it into the group's rows.
    // Cells and sheet stay apart from what is asked: they are lent to be written, and what is asked is only read.
    // A struct of both would be taken apart in each search, which lends a part of the cells and hands on another sheet.
    fn search<R: Rule>(
        &mut self,
        asked: &Asked<R, S>,
        cells: &mut [Option<S::Cost>],
        sheet: &mut Sheet,
    ) -> Answer<S::Cost>
        ensures asking_leaves_the_meaning { SameMeaning (takes self.new) (takes self.old) }
        ensures the_answer_is_right { Answered (inquired R.Rule.conflicts S.Scale.measure asked.now) (takes self.old (inquired R.Rule.conflicts S.Scale.measure asked.now) (length cells.old)) sheet.old sheet.new result };

    ghost one_train: { (s : Self) (i : Inquiry S.Cost) (cells : ℕ) → OneTrain i cells → takes s i cells };
}

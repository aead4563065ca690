ghost use Rattle.std.specs.Prelude.{◌≡◌};
ghost use Rattle.search.specs.Answers.{Answered};
ghost use Rattle.words.specs.Rows.{chosen_of};
ghost use Rattle.words.specs.Tasks.{asked_of, SolutionFor};

use crate::chosen::Chosen;
use crate::found::Found;
use crate::group::Group;
use crate::written::write;
use rules::rule::Rule;
use scales::scale::Scale;
use search::answer::{Answer, Unplanned};
use sheets::sheet::Sheet;

impl<'a, S, R> Group<'a, S, R> {
    // The group's rows, with their starts and goals.
    fn rows(&self) -> Chosen
        ensures its_rows { result ≡ chosen_of self.now.board.trains self.now.row self.now.start self.now.board.goal }
    {
        Chosen {
            trains: self.board.trains,
            row: self.row,
            start: self.start,
            goal: self.board.goal,
        }
    }
}

impl<'a, S: Scale, R: Rule> Group<'a, S, R> {
    // What a search answers of a group that it takes: the cost of the best sheet, which is written, or that there is none.
    pub fn answer(&self, found: Option<Found<S::Cost>>, sheet: &mut Sheet) -> Answer<S::Cost>
        requires solved { SolutionFor R.Rule.conflicts S.Scale.measure self.now found }
        ensures the_answer_is_right { Answered (asked_of R.Rule.conflicts S.Scale.measure self.now) (Unit {0}) sheet.old sheet.new result }
    {
        let found = found.ok_or(Unplanned::NoSheet)?;
        write(sheet, &self.rows(), &found.plan, self.steps);
        Ok(found.cost)
    }
}

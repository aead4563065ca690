ghost use Rattle.std.specs.Prelude.{◌≡◌, length};
ghost use Rattle.track.specs.Refusals.{refused_by};
ghost use Rattle.roster.specs.Book.Call.{plan};
ghost use Rattle.roster.specs.Model.{seen};
ghost use Rattle.planner.specs.Promise.{PlanKept};
ghost use Rattle.planner.specs.History.{meaning, judged, setting_of, Step, event, says_plan};
ghost use Rattle.planner.specs.Left.{NothingChangesIf, PlanningLeaves};

use crate::planner::Planner;
use rules::rule::Rule;
use scales::scale::Scale;
use search::search::Search;
use sheets::asked::Asked;
use sheets::everyone::everyone;
use sheets::pose::ask;
use sheets::sheet::Sheet;
use track::refusal::Refusal;

impl<R, S, Q> Planner<R, S, Q> {
    // Whether a plan of so many steps may be made with so many cells.
    // The conditions stand together in the order of the book, though the question asks the first two again.
    fn check_plan(&self, steps: usize, cells: usize) -> Result<(), Refusal>
        ensures the_first_condition_met_declines { refused_by result ≡ judged self.now (plan steps cells) }
    {
        if steps == 0 || steps > 16 {
            return Err(Refusal::StepsOutOfRange);
        }
        if self.roster.count() == 0 {
            return Err(Refusal::RosterEmpty);
        }
        if cells < usize::from(self.layout.sections()) * (steps + 1) {
            return Err(Refusal::TooFewCells);
        }
        Ok(())
    }
}

impl<R: Rule, S: Scale, Q: Search<S>> Planner<R, S, Q> {
    // Plans all trains of the roster in so many steps, and writes the best sheet. Gives its cost, and the number of groups that were planned apart.
    pub fn plan(
        &mut self,
        steps: usize,
        cells: &mut [Option<S::Cost>],
        sheet: &mut Sheet,
    ) -> Result<(S::Cost, usize), Refusal>
        ensures a_sheet_is_lawful_cheapest_and_first_or_told_to_be_none_or_beyond_reach { PlanKept
            (setting_of (meaning R.Rule.conflicts S.Scale.measure Q.Search.takes) self.old) (seen self.old.roster)
            steps (length cells.old) (judged self.old (plan steps (length cells.old)))
            (says_plan result) sheet.old sheet.new }
        ensures a_plan_that_the_book_declines_leaves_planner_cells_and_sheet_as_they_were { NothingChangesIf
            (judged self.old (plan steps (length cells.old)))
            self.old self.new cells.old cells.new sheet.old sheet.new }
        ensures planning_leaves_layout_rule_scale_roster_and_which_groups_are_taken { PlanningLeaves
            (meaning R.Rule.conflicts S.Scale.measure Q.Search.takes) self.old self.new }
        ensures after_any_calls_a_sheet_is_lawful_cheapest_and_the_first_of_equals { Step
            (meaning R.Rule.conflicts S.Scale.measure Q.Search.takes) self.old
            (event (plan steps (length cells.old)) (says_plan result) sheet.old sheet.new) self.new }
    {
        self.check_plan(steps, cells.len())?;
        let group = everyone(&self.roster);
        // never declined: the roster has a train, and all its trains are on the layout
        let question = ask(&self.layout, &self.roster, group, steps)?;
        let asked = Asked {
            rule: &self.rule,
            scale: &self.scale,
            question: &question,
        };
        Ok(self.search.plan(&asked, cells, sheet)?)
    }
}

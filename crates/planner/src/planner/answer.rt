ghost use Rattle.std.specs.Prelude.{◌≡◌, length};
ghost use Rattle.roster.specs.Model.{seen};
ghost use Rattle.planner.specs.Promise.{Kept};
ghost use Rattle.planner.specs.History.{meaning, judged, setting_of, Step, GoesOn, event, call_of, reply_of};
ghost use Rattle.planner.specs.Left.{NothingChangesIf, PlannerLeft, CellsLeft, CallDone};

use crate::order::{Order, Told};
use crate::planner::Planner;
use rules::rule::Rule;
use scales::scale::Scale;
use search::search::Search;
use sheets::sheet::Sheet;
use track::refusal::Refusal;

impl<R: Rule, S: Scale, Q: Search<S>> Planner<R, S, Q> {
    // Makes any call.
    pub fn answer(
        &mut self,
        order: Order,
        cells: &mut [Option<S::Cost>],
        sheet: &mut Sheet,
    ) -> Result<Told<S::Cost>, Refusal>
        ensures the_reply_is_that_of_the_book_at_hand_or_tells_of_a_sheet_lawful_cheapest_and_first { Kept
            (setting_of (meaning R.Rule.conflicts S.Scale.measure Q.Search.takes) self.old) (seen self.old.roster)
            (call_of order (length cells.old)) (reply_of result) sheet.old sheet.new }
        ensures a_call_that_the_book_declines_leaves_planner_cells_and_sheet_as_they_were { NothingChangesIf
            (judged self.old (call_of order (length cells.old)))
            self.old self.new cells.old cells.new sheet.old sheet.new }
        ensures only_the_roster_changes_as_the_book_says_or_in_a_plan_only_the_search { PlannerLeft
            (meaning R.Rule.conflicts S.Scale.measure Q.Search.takes) self.old
            (call_of order (length cells.old)) self.new }
        ensures only_a_plan_writes_cells { CellsLeft (call_of order (length cells.old)) cells.old cells.new }
        ensures after_any_calls_the_book_is_followed_and_a_sheet_is_lawful_cheapest_and_first { Step
            (meaning R.Rule.conflicts S.Scale.measure Q.Search.takes) self.old
            (event (call_of order (length cells.old)) (reply_of result) sheet.old sheet.new) self.new }
        ensures every_history_goes_on_with_the_book_followed_and_sheets_lawful_cheapest_and_first { GoesOn
            (meaning R.Rule.conflicts S.Scale.measure Q.Search.takes) self.old
            (event (call_of order (length cells.old)) (reply_of result) sheet.old sheet.new) self.new }
    {
        self.make_call(order, cells, sheet)
    }

    // Makes the call that the order stands for.
    // Apart from `answer`, whose clauses then follow once, and not at each way out.
    fn make_call(
        &mut self,
        order: Order,
        cells: &mut [Option<S::Cost>],
        sheet: &mut Sheet,
    ) -> Result<Told<S::Cost>, Refusal>
        ensures the_reply_is_right_and_only_what_the_call_is_about_changes { CallDone
            (meaning R.Rule.conflicts S.Scale.measure Q.Search.takes) self.old
            (event (call_of order (length cells.old)) (reply_of result) sheet.old sheet.new)
            cells.old cells.new self.new }
    {
        match order {
            Order::Enter(train) => {
                self.enter(train)?;
                Ok(Told::Accepted)
            }
            Order::Withdraw(number) => {
                self.withdraw(number)?;
                Ok(Told::Accepted)
            }
            Order::Possess(section) => {
                let note = self.possess(section)?;
                Ok(Told::Noted(note))
            }
            Order::GiveUp(note) => {
                self.give_up(note)?;
                Ok(Told::Accepted)
            }
            Order::AskClosed => {
                let (count, lowest) = self.closed();
                Ok(Told::AreClosed(count, lowest))
            }
            Order::Plan(steps) => {
                let (cost, groups) = self.plan(steps, cells, sheet)?;
                Ok(Told::Planned(cost, groups))
            }
        }
    }
}

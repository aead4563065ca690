ghost use Rattle.std.specs.Prelude.{◌≡◌, ℕ, Ok, Err};
ghost use Rattle.track.specs.Layouts.{sections_of};
ghost use Rattle.track.specs.Refusals.{refused_by, AsItWas};
ghost use Rattle.roster.specs.Book.{entry_of, how_many, lowest};
ghost use Rattle.roster.specs.Book.Call.{withdraw, possess, give_up, ask};
ghost use Rattle.roster.specs.Model.{seen};
ghost use Rattle.sheets.specs.declared.sheet.Sheet.{Sheet};
ghost use Rattle.planner.specs.Promise.{Kept};
ghost use Rattle.planner.specs.Promise.Reply.{are_closed};
ghost use Rattle.planner.specs.History.{meaning, judged, setting_of, Step, event, says_done, says_note};
ghost use Rattle.planner.specs.Left.{OnlyTheRosterChanges};

use crate::note::Note;
use crate::planner::Planner;
use roster::train::Train;
use rules::rule::Rule;
use scales::scale::Scale;
use search::search::Search;
use track::refusal::Refusal;

impl<R: Rule, S: Scale, Q: Search<S>> Planner<R, S, Q> {
    // Enters a train.
    pub fn enter(&mut self, train: Train) -> Result<(), Refusal>
        ensures the_first_condition_met_declines { refused_by result ≡ judged self.old (entry_of train) }
        ensures only_the_roster_changes_as_the_book_says { OnlyTheRosterChanges
            self.old (entry_of train) self.new }
        ensures a_declined_call_leaves_the_planner_as_it_was { AsItWas result self.old self.new }
        ensures the_reply_is_that_of_the_book_at_hand { (s : Sheet) →
            let k = meaning R.Rule.conflicts S.Scale.measure Q.Search.takes in
            Kept (setting_of k self.old) (seen self.old.roster) (entry_of train) (says_done result) s s }
        ensures after_any_calls_the_reply_is_that_of_the_book { (s : Sheet) →
            let k = meaning R.Rule.conflicts S.Scale.measure Q.Search.takes in
            Step k self.old (event (entry_of train) (says_done result) s s) self.new }
    {
        self.roster.enter(&self.layout, train)
    }

    // Takes the train with this number off the roster.
    pub fn withdraw(&mut self, number: u16) -> Result<(), Refusal>
        ensures the_first_condition_met_declines { refused_by result ≡ judged self.old (withdraw number) }
        ensures only_the_roster_changes_as_the_book_says { OnlyTheRosterChanges
            self.old (withdraw number) self.new }
        ensures a_declined_call_leaves_the_planner_as_it_was { AsItWas result self.old self.new }
        ensures the_reply_is_that_of_the_book_at_hand { (s : Sheet) →
            let k = meaning R.Rule.conflicts S.Scale.measure Q.Search.takes in
            Kept (setting_of k self.old) (seen self.old.roster) (withdraw number) (says_done result) s s }
        ensures after_any_calls_the_reply_is_that_of_the_book { (s : Sheet) →
            let k = meaning R.Rule.conflicts S.Scale.measure Q.Search.takes in
            Step k self.old (event (withdraw number) (says_done result) s s) self.new }
    {
        self.roster.withdraw(number)
    }

    // Closes a section, which is then under possession, and gives a note of it.
    pub fn possess(&mut self, section: u8) -> Result<Note, Refusal>
        ensures the_first_condition_met_declines { refused_by result ≡ judged self.old (possess section) }
        ensures only_the_roster_changes_as_the_book_says { OnlyTheRosterChanges
            self.old (possess section) self.new }
        ensures a_declined_call_leaves_the_planner_as_it_was { AsItWas result self.old self.new }
        ensures the_reply_is_that_of_the_book_at_hand { (s : Sheet) →
            let k = meaning R.Rule.conflicts S.Scale.measure Q.Search.takes in
            Kept (setting_of k self.old) (seen self.old.roster) (possess section) (says_note result) s s }
        ensures after_any_calls_the_reply_is_that_of_the_book { (s : Sheet) →
            let k = meaning R.Rule.conflicts S.Scale.measure Q.Search.takes in
            Step k self.old (event (possess section) (says_note result) s s) self.new }
        ensures the_note_names_the_section { elim result [ Ok note ↦ note.section ≡ section | Err e ↦ Unit {0} ] }
    {
        self.roster.close(&self.layout, section)?;
        Ok(Note { section })
    }

    // Opens the section that the note names. The note is used up even when the call is declined.
    pub fn give_up(&mut self, note: Note) -> Result<(), Refusal>
        ensures the_first_condition_met_declines { refused_by result ≡ judged self.old (give_up note.section) }
        ensures only_the_roster_changes_as_the_book_says { OnlyTheRosterChanges
            self.old (give_up note.section) self.new }
        ensures a_declined_call_leaves_the_planner_as_it_was { AsItWas result self.old self.new }
        ensures the_reply_is_that_of_the_book_at_hand { (s : Sheet) →
            let k = meaning R.Rule.conflicts S.Scale.measure Q.Search.takes in
            Kept (setting_of k self.old) (seen self.old.roster) (give_up note.section)
            (says_done result) s s }
        ensures after_any_calls_the_reply_is_that_of_the_book { (s : Sheet) →
            let k = meaning R.Rule.conflicts S.Scale.measure Q.Search.takes in
            Step k self.old (event (give_up note.section) (says_done result) s s) self.new }
    {
        let Note { section } = note;
        self.roster.open_again(&self.layout, section)
    }

    // How many sections are closed, and which is the lowest.
    pub fn closed(&self) -> (u32, Option<u8>)
        ensures how_many_of_the_layout_are_closed { result.0 ≡
            how_many (sections_of self.now.layout) (seen self.now.roster).closed }
        ensures the_lowest_of_the_layout_that_is_closed { result.1 ≡
            lowest (sections_of self.now.layout) (seen self.now.roster).closed }
        ensures the_reply_is_that_of_the_book_at_hand { (s : Sheet) →
            let k = meaning R.Rule.conflicts S.Scale.measure Q.Search.takes in
            Kept (setting_of k self.now) (seen self.now.roster) ask (are_closed result.0 result.1) s s }
        ensures after_any_calls_the_reply_is_that_of_the_book { (s : Sheet) →
            let k = meaning R.Rule.conflicts S.Scale.measure Q.Search.takes in
            Step k self.now (event ask (are_closed result.0 result.1) s s) self.now }
    {
        self.roster.closed()
    }
}

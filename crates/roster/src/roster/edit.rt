ghost use Rattle.std.specs.Prelude.{◌≡◌, ℕ, IfOk};
ghost use Rattle.track.specs.Layouts.{sections_of};
ghost use Rattle.track.specs.Refusals.{refused_by, granted, AsItWas};
ghost use Rattle.roster.specs.Book.{empty, declined, changed, first_declined, entered_all};
ghost use Rattle.roster.specs.Book.Call.{enter, withdraw, possess, give_up};
ghost use Rattle.roster.specs.Model.{seen, RosterLaws};

use crate::roster::Roster;
use crate::roster::checks::{has, out_of_range};
use crate::train::Train;
use track::layout::Layout;
use track::list::FixedList;
use track::refusal::Refusal;

impl Roster {
    pub fn new() -> Roster
        ensures nothing_is_entered_or_closed { seen result ≡ empty }
        ensures every_roster_keeps_its_laws { RosterLaws result }
    {
        Roster {
            closed: 0,
            trains: FixedList::new(Train {
                number: 0,
                start: 0,
                goal: 0,
            }),
        }
    }

    // The roster of the trains, entered one after the other, with nothing closed; or why the first
    // that could not be entered was declined.
    pub fn of(layout: &Layout, trains: &[Train]) -> Result<Roster, Refusal>
        ensures the_first_entry_declined_tells_why { refused_by result ≡ first_declined (sections_of layout.now) empty trains.now }
        ensures a_roster_of_all_the_trains { IfOk result (λ roster. seen roster ≡ entered_all (sections_of layout.now) empty trains.now) }
        ensures every_roster_keeps_its_laws { IfOk result (λ roster. RosterLaws roster) }
    {
        let mut roster = Roster::new();
        for train in trains {
            roster.enter(layout, *train)?;
        }
        Ok(roster)
    }

    // Enters a train, at its place in the order of numbers.
    pub fn enter(&mut self, layout: &Layout, train: Train) -> Result<(), Refusal>
        ensures the_first_condition_met_declines { refused_by result ≡ declined (sections_of layout.now) (seen self.old) (enter train.number train.start train.goal) }
        ensures just_the_train_is_entered_or_nothing { seen self.new ≡ granted result (changed (seen self.old) (enter train.number train.start train.goal)) (seen self.old) }
        ensures a_declined_call_leaves_the_roster_as_it_was { AsItWas result self.old self.new }
    {
        let Train {
            number,
            start,
            goal,
        } = train;
        let sections = layout.sections();
        if start >= sections || goal >= sections {
            return Err(Refusal::NoSuchSection);
        }
        if out_of_range(number) {
            return Err(Refusal::TrainNumberOutOfRange);
        }
        if self.number_taken(number) {
            return Err(Refusal::OnRosterAlready);
        }
        if has(self.closed, start) || has(self.closed, goal) {
            return Err(Refusal::EndClosed);
        }
        if self.start_taken(start) {
            return Err(Refusal::StartTaken);
        }
        if self.goal_taken(goal) {
            return Err(Refusal::GoalTaken);
        }
        if self.count() >= 8 {
            return Err(Refusal::RosterFull);
        }
        let place = self.place(number);
        self.trains.insert(place, train);
        Ok(())
    }

    // Takes the train with this number off the roster.
    pub fn withdraw(&mut self, number: u16) -> Result<(), Refusal>
        ensures the_first_condition_met_declines { (n : ℕ) → refused_by result ≡ declined n (seen self.old) (withdraw number) }
        ensures just_the_train_is_taken_out_or_nothing { seen self.new ≡ granted result (changed (seen self.old) (withdraw number)) (seen self.old) }
        ensures a_declined_call_leaves_the_roster_as_it_was { AsItWas result self.old self.new }
    {
        if out_of_range(number) {
            return Err(Refusal::TrainNumberOutOfRange);
        }
        let Some(row) = self.find(number) else {
            return Err(Refusal::NotOnRoster);
        };
        self.trains.remove(row);
        Ok(())
    }

    // Closes a section, on which no train starts or ends.
    pub fn close(&mut self, layout: &Layout, section: u8) -> Result<(), Refusal>
        ensures the_first_condition_met_declines { refused_by result ≡ declined (sections_of layout.now) (seen self.old) (possess section) }
        ensures just_the_section_is_closed_or_nothing { seen self.new ≡ granted result (changed (seen self.old) (possess section)) (seen self.old) }
        ensures a_declined_call_leaves_the_roster_as_it_was { AsItWas result self.old self.new }
    {
        if section >= layout.sections() {
            return Err(Refusal::NoSuchSection);
        }
        if has(self.closed, section) {
            return Err(Refusal::ClosedAlready);
        }
        if self.start_taken(section) || self.goal_taken(section) {
            return Err(Refusal::StartOrGoal);
        }
        self.closed |= 1 << section;
        Ok(())
    }

    // Opens a closed section again.
    pub fn open_again(&mut self, layout: &Layout, section: u8) -> Result<(), Refusal>
        ensures the_first_condition_met_declines { refused_by result ≡ declined (sections_of layout.now) (seen self.old) (give_up section) }
        ensures just_the_section_is_opened_or_nothing { seen self.new ≡ granted result (changed (seen self.old) (give_up section)) (seen self.old) }
        ensures a_declined_call_leaves_the_roster_as_it_was { AsItWas result self.old self.new }
    {
        if section >= layout.sections() {
            return Err(Refusal::NoSuchSection);
        }
        if !has(self.closed, section) {
            return Err(Refusal::OpenAlready);
        }
        self.closed ^= 1 << section;
        Ok(())
    }
}

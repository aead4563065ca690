use crate::plan::Plan;
use roster::roster::Roster;
use sheets::sheet::Sheet;
use track::list::FixedList;

impl<C> Plan<C> {
    ghost use Rattle.std.specs.Prelude.{◌≡◌, min};
    ghost use Rattle.frames.specs.Replies.{numbers_of};
    ghost use Rattle.roster.specs.Model.{held};

    // A plan of the trains of a roster, over so many steps, or over 16 if those are more.
    pub fn new(roster: &Roster, steps: usize, sheet: &Sheet, cost: C, groups: u8) -> Plan<C>
        ensures the_numbers_of_the_trains { result.numbers ≡ numbers_of (held roster.now) }
        ensures the_sheet_as_it_is { result.sheet ≡ sheet.now }
        ensures so_many_steps_at_most_16 { result.steps ≡ min steps 16 }
        ensures its_cost_and_groups { (result.cost ≡ cost) × (result.groups ≡ groups) }
    {
        let mut numbers = FixedList::new(0);
        for train in roster.trains() {
            numbers.push(train.number);
        }
        Plan {
            numbers,
            sheet: *sheet,
            steps: steps.min(16),
            cost,
            groups,
        }
    }
}

ghost use Rattle.std.specs.Prelude.{◌≡◌};
ghost use Rattle.roster.specs.Model.{rows_of};
ghost use Rattle.sheets.specs.Posing.{marked, all_trains};

use roster::roster::Roster;

// The group of all trains of a roster.
pub fn everyone(roster: &Roster) -> [bool; 8]
    ensures all_trains_are_marked { marked result ≡ all_trains (rows_of roster.now) }
{
    let mut marks = [false; 8];
    marks[..roster.count()].fill(true);
    marks
}

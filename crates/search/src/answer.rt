ghost use Rattle.std.specs.Prelude.{◌≡◌};
ghost use Rattle.search.specs.Reasons.{reason};

use track::refusal::Refusal;

// Why a search has no sheet of a group.
#[derive(Clone, Copy, PartialEq, Eq, Debug)]
pub enum Unplanned {
    // the search does not take the group
    BeyondReach,
    // the group has no lawful sheet
    NoSheet,
}

// What a search says of a group: the cost of the best sheet, which is written, or why there is none.
pub type Answer<C> = Result<C, Unplanned>;

impl From<Unplanned> for Refusal {
    ghost from_gives = { λ u r. r ≡ reason u };

    fn from(unplanned: Unplanned) -> Refusal {
        match unplanned {
            Unplanned::BeyondReach => Refusal::BeyondReach,
            Unplanned::NoSheet => Refusal::NoLawfulSheet,
        }
    }
}

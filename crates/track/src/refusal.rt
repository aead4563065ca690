ghost use Rattle.std.specs.Prelude.{◌≡◌};
ghost use Rattle.track.specs.Refusals.{number_of};

// Why a call was declined. Each reason has a number, by which programs tell it.
#[derive(Clone, Copy, PartialEq, Eq, Debug)]
pub enum Refusal {
    NoSuchSection,
    TooManySections,
    SameSectionTwice,
    TooManyPoints,
    LinkedAlready,
    TooManyLinks,
    NotALink,
    SameLinkTwice,
    FouledAlready,
    TooManyFouls,
    TrainNumberOutOfRange,
    OnRosterAlready,
    EndClosed,
    StartTaken,
    GoalTaken,
    RosterFull,
    NotOnRoster,
    ClosedAlready,
    StartOrGoal,
    OpenAlready,
    StepsOutOfRange,
    RosterEmpty,
    TooFewCells,
    BeyondReach,
    NoLawfulSheet,
    GroupSizeOutOfRange,
    // with the place of the first wrong byte
    NotPairsOfDigits(u8),
    UnknownFrame,
    WrongSideOfFinish,
    WritingPlaceTooShort,
}

impl Refusal {
    pub fn number(&self) -> u8
        ensures the_number_of_the_reason { result ≡ number_of self.now }
    {
        // Discriminants would not do for this: one reason carries a place, so the enum has no `as u8`.
        match *self {
            Refusal::NoSuchSection => 1,
            Refusal::TooManySections => 2,
            Refusal::SameSectionTwice => 3,
            Refusal::TooManyPoints => 4,
            Refusal::LinkedAlready => 5,
            Refusal::TooManyLinks => 6,
            Refusal::NotALink => 7,
            Refusal::SameLinkTwice => 8,
            Refusal::FouledAlready => 9,
            Refusal::TooManyFouls => 10,
            Refusal::TrainNumberOutOfRange => 11,
            Refusal::OnRosterAlready => 12,
            Refusal::EndClosed => 13,
            Refusal::StartTaken => 14,
            Refusal::GoalTaken => 15,
            Refusal::RosterFull => 16,
            Refusal::NotOnRoster => 17,
            Refusal::ClosedAlready => 18,
            Refusal::StartOrGoal => 19,
            Refusal::OpenAlready => 20,
            Refusal::StepsOutOfRange => 21,
            Refusal::RosterEmpty => 22,
            Refusal::TooFewCells => 23,
            Refusal::BeyondReach => 24,
            Refusal::NoLawfulSheet => 25,
            Refusal::GroupSizeOutOfRange => 26,
            Refusal::NotPairsOfDigits(_) => 27,
            Refusal::UnknownFrame => 28,
            Refusal::WrongSideOfFinish => 29,
            Refusal::WritingPlaceTooShort => 30,
        }
    }
}

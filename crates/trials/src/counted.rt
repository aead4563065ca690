use crate::problem::Cost;
use rules::clear_section::ClearSection;
use rules::following::Following;
use rules::rule::Rule;
use scales::pair::Pair;
use scales::scale::Scale;
use scales::steps::Steps;
use scales::steps_then_points::StepsThenPoints;

// A rule that the enumeration knows too.
pub trait Ruled: Rule {
    // whether a section has to be clear
    const CLEAR: bool;
}

impl Ruled for Following {
    const CLEAR: bool = false;
}

impl Ruled for ClearSection {
    const CLEAR: bool = true;
}

// A scale that the enumeration knows too.
pub trait Counted: Scale {
    // whether points count
    const BY_POINTS: bool;

    fn counted(&self, cost: Self::Cost) -> Cost;
}

impl Counted for Steps {
    const BY_POINTS: bool = false;

    fn counted(&self, cost: u16) -> Cost {
        (cost, 0)
    }
}

impl Counted for StepsThenPoints {
    const BY_POINTS: bool = true;

    fn counted(&self, cost: Pair) -> Cost {
        (cost.steps, cost.points)
    }
}

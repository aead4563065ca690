use scales::pair::Pair;
use scales::scale::Scale;
use scales::steps::Steps;
use scales::steps_then_points::StepsThenPoints;
use std::io;

// A scale that says in words by what it orders sheets, and what a sheet costs.
// The station has the like: two programs share no crate of their own, and in a library the words would be no plainer, as each program
// chooses its own and a library's call would owe a promise of them.
pub trait InWords: Scale {
    const ORDER: &'static str;

    fn say(&self, rt: &HostRuntime, cost: Self::Cost) -> io::Result<()>;
}

impl InWords for Steps {
    const ORDER: &'static str = "by steps";

    fn say(&self, rt: &HostRuntime, cost: u16) -> io::Result<()> {
        print!(rt; "{cost} steps")
    }
}

impl InWords for StepsThenPoints {
    const ORDER: &'static str = "by steps, then points";

    fn say(&self, rt: &HostRuntime, cost: Pair) -> io::Result<()> {
        print!(rt; "{cost}")
    }
}

use crate::intake::Intake;
use crate::machine::Machine;
use frames::cutter::Cutter;
use rules::rule::Rule;
use scales::scale::Scale;
use search::search::Search;

impl<R: Rule, S: Scale, Q: Search<S>> Intake<R, S, Q> {
    ghost use Rattle.std.specs.Prelude.{[]};
    ghost use Rattle.planner.specs.History.{meaning};
    ghost use Rattle.machine.specs.Inputs.{InputHistory};

    // Nothing is taken yet. The lines will be done by a machine with this rule and scale, over this search.
    pub fn new(rule: R, scale: S, below: Q) -> Intake<R, S, Q>
        ensures nothing_is_taken { InputHistory
            (meaning R.Rule.conflicts S.Scale.measure Q.Search.takes) rule scale below [] [] result }
    {
        let cutter = Cutter::new();
        let machine = Machine::new(rule, scale, below);
        Intake { cutter, machine }
    }
}

use crate::desk::Desk;
use crate::machine::Machine;
use crate::phase::Phase;
use rules::rule::Rule;
use scales::scale::Scale;
use search::search::Search;
use track::drawing::Drawing;

impl<R: Rule, S: Scale, Q: Search<S>> Machine<R, S, Q> {
    ghost use Rattle.std.specs.Prelude.{◌≡◌, []};
    ghost use Rattle.planner.specs.History.{meaning};
    ghost use Rattle.machine.specs.Lines.{LineHistory, EveryRunOfLinesKeepsAllReplies};

    // A machine with nothing drawn. At the finish it makes its planner with this rule and scale, over this search.
    pub fn new(rule: R, scale: S, below: Q) -> Machine<R, S, Q>
        ensures nothing_is_drawn { LineHistory
            (meaning R.Rule.conflicts S.Scale.measure Q.Search.takes) rule scale below [] result }
        ensures in_every_run_the_rules_are_followed_and_each_sheet_is_lawful_cheapest_and_first { EveryRunOfLinesKeepsAllReplies
            (meaning R.Rule.conflicts S.Scale.measure Q.Search.takes) rule scale below result }
    {
        let drawing = Drawing::new();
        Machine {
            phase: Some(Phase::Drawing(Desk {
                drawing,
                rule,
                scale,
                below,
            })),
        }
    }
}

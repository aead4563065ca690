ghost use Rattle.std.specs.Prelude.{◌≡◌, []};
ghost use Rattle.planner.specs.History.{meaning, History, EveryRunKeepsAllReplies, ThePromiseLeavesNoChoice};

use crate::planner::Planner;
use grouping::grouping::Grouping;
use roster::roster::Roster;
use rules::rule::Rule;
use scales::scale::Scale;
use search::search::Search;
use track::layout::Layout;

impl<R: Rule, S: Scale, Q: Search<S>> Planner<R, S, Q> {
    // A planner with nothing entered and nothing closed. It asks the search `below` for one group after the other.
    pub fn new(layout: Layout, rule: R, scale: S, below: Q) -> Planner<R, S, Q>
        ensures it_has_these_parts { (result.layout ≡ layout) × (result.rule ≡ rule) × (result.scale ≡ scale) × (result.search.below ≡ below) }
        ensures no_train_is_entered_and_nothing_is_closed { History
            (meaning R.Rule.conflicts S.Scale.measure Q.Search.takes) result [] result }
        ensures every_run_follows_the_book_with_sheets_lawful_cheapest_and_first { EveryRunKeepsAllReplies
            (meaning R.Rule.conflicts S.Scale.measure Q.Search.takes) result }
        ensures the_promise_leaves_no_choice { ThePromiseLeavesNoChoice
            (meaning R.Rule.conflicts S.Scale.measure Q.Search.takes) result }
    {
        let search = Grouping::over(below);
        let roster = Roster::new();
        Planner {
            layout,
            rule,
            scale,
            search,
            roster,
        }
    }
}

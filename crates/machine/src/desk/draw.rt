ghost use Rattle.std.specs.Prelude.{◌≡◌, Some};
ghost use Rattle.track.specs.Refusals.{AsItWas};
ghost use Rattle.sheets.specs.declared.sheet.Sheet.{Sheet};
ghost use Rattle.planner.specs.Promise.Reply.{accepted};
ghost use Rattle.planner.specs.History.{meaning};
ghost use Rattle.machine.specs.Asked.Asked.{sections, link, foul, finish};
ghost use Rattle.machine.specs.Lines.{DrawOwes, TurnOwes};
ghost use Rattle.machine.specs.declared.phase.Phase.TheVariants.{Drawing as IsDrawing, Planning as IsPlanning};

use crate::desk::Desk;
use planner::planner::Planner;
use rules::rule::Rule;
use scales::scale::Scale;
use search::search::Search;
use track::refusal::Refusal;

// The three calls that draw only hand on: each is here for its clause, which says what the reply is worth for the whole machine.
impl<R: Rule, S: Scale, Q: Search<S>> Desk<R, S, Q> {
    pub(crate) fn add_sections(&mut self, k: u8) -> Result<(), Refusal>
        ensures the_rules_are_followed { DrawOwes
            (meaning R.Rule.conflicts S.Scale.measure Q.Search.takes) self.old (sections k) result
            self.new }
        ensures a_declined_call_leaves_the_desk_as_it_was { AsItWas result self.old self.new }
    {
        self.drawing.add_sections(k)
    }

    pub(crate) fn add_link(&mut self, a: u8, b: u8, points: u8) -> Result<(), Refusal>
        ensures the_rules_are_followed { DrawOwes
            (meaning R.Rule.conflicts S.Scale.measure Q.Search.takes) self.old (link a b points) result
            self.new }
        ensures a_declined_call_leaves_the_desk_as_it_was { AsItWas result self.old self.new }
    {
        self.drawing.add_link(a, b, points)
    }

    pub(crate) fn add_foul(&mut self, a: u8, b: u8, c: u8, d: u8) -> Result<(), Refusal>
        ensures the_rules_are_followed { DrawOwes
            (meaning R.Rule.conflicts S.Scale.measure Q.Search.takes) self.old (foul a b c d) result
            self.new }
        ensures a_declined_call_leaves_the_desk_as_it_was { AsItWas result self.old self.new }
    {
        self.drawing.add_foul(a, b, c, d)
    }

    // The planner of what was drawn, with no calls yet.
    pub(crate) fn finish(self) -> Planner<R, S, Q>
        ensures the_rules_are_followed { (rule
            : R) (scale : S) (below : Q) (s : Sheet) → TurnOwes (meaning R.Rule.conflicts S.Scale.measure
            Q.Search.takes) rule scale below (Some (IsDrawing self)) finish accepted s s (Some
            (IsPlanning result)) }
    {
        Planner::new(self.drawing.finish(), self.rule, self.scale, self.below)
    }
}

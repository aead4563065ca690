ghost use Rattle.std.specs.Prelude.{◌≡◌, ◌<◌, ◌≤◌, true, not, take};
ghost use Rattle.std.specs.List.{list_all, zip};
ghost use Rattle.words.specs.Joint.{may_move, move_price, home};
ghost use Rattle.words.specs.Tasks.{task, open_to};

use crate::board::Board;
use crate::turn::Turn;
use rules::moves::Move;
use rules::rule::Rule;
use scales::scale::Scale;
use sheets::price::move_price;

impl<'a, S, R> Board<'a, S, R> {
    // Whether the train may stand there or run over a link, to a section that is open.
    fn open_to(&self, step: Move) -> bool
        ensures whether_the_move_is_open { result ≡ open_to self.now.layout.now self.now.roster.now step.from step.to }
    {
        (!step.runs() || self.layout.points(step.from, step.to).is_some())
            && !self.roster.is_closed(step.to)
    }

    // Whether every train stands at its goal.
    #[tactic(auto, using(crate::proofs::Pairs::all_pointwise))]
    pub fn all_home(&self, at: [u8; 8]) -> bool
        requires { self.now.trains ≤ 8 }
        ensures whether_every_train_is_at_its_goal { result ≡ home (task (λ _ _ _ _ _ _. true) self.now) (take self.now.trains at) }
    {
        at[..self.trains] == self.goal[..self.trains]
    }
}

impl<'a, S, R: Rule> Board<'a, S, R> {
    // Whether none of the moves made already, each from one of these sections to the other beside it, conflicts with the next.
    fn clear_of(&self, from: &[u8], to: &[u8], next: Move) -> bool
        ensures whether_none_conflicts { result ≡ list_all (λ m. not (R.Rule.conflicts self.now.rule.now self.now.layout.now m.0 m.1 next.from next.to)) (zip from.now to.now) }
    {
        from.iter().zip(to).all(|(&a, &b)| !self.rule.conflict(self.layout, Move::new(a, b), next))
    }

    // Whether the train whose turn it is may go to x, beside the moves of the trains before it.
    pub fn may_move(&self, turn: &Turn, x: u8) -> bool
        requires { turn.now.moved < 8 }
        ensures whether_the_move_is_open_and_meets_no_conflict { result ≡ may_move (task R.Rule.conflicts self.now) turn.now.at turn.now.to turn.now.moved x }
    {
        let step = Move::new(turn.at[turn.moved], x);
        self.open_to(step) && self.clear_of(&turn.at[..turn.moved], &turn.to[..turn.moved], step)
    }
}

impl<'a, S: Scale, R> Board<'a, S, R> {
    // The price of the move to x of the train whose turn it is.
    pub fn move_price(&self, turn: &Turn, x: u8) -> S::Cost
        requires of_the_group { turn.now.moved < self.now.trains }
        requires few { self.now.trains ≤ 8 }
        ensures the_price_of_the_move { result ≡ move_price (S.Scale.measure self.now.scale.now) (task (λ _ _ _ _ _ _. true) self.now) turn.now.at turn.now.moved x }
    {
        let step = Move::new(turn.at[turn.moved], x);
        move_price(self.scale, self.layout, step, self.goal[turn.moved])
    }
}

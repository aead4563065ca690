ghost use Rattle.std.specs.Prelude.{◌≡◌, ◌+◌, ◌≤◌, ◌&&◌, ◌==◌, slice_index};
ghost use Rattle.rules.specs.Conflicts.{Conflicts};
ghost use Rattle.scales.specs.Measure.{joined};
ghost use Rattle.sheets.specs.Plan.{cost};
ghost use Rattle.sheets.specs.Posing.{marked};
ghost use Rattle.sheets.specs.Inquiry.{over, problem_asked, plan_of};

use crate::question::Question;
use crate::sheet::Sheet;
use rules::moves::Move;
use scales::scale::Scale;
use track::layout::Layout;

// The points run over in a move: none when standing.
// No lawful sheet has a move where there is no link; it counts 0, so that every sheet has a cost.
pub fn run_over(layout: &Layout, step: Move) -> u8
    ensures the_points_of_the_link_or_none_when_standing { result ≡ over layout.now step.from step.to }
{
    if step.runs() {
        layout.points(step.from, step.to).unwrap_or(0)
    } else {
        0
    }
}

// The price of a move of a train with this goal.
pub fn move_price<S: Scale>(scale: &S, layout: &Layout, step: Move, goal: u8) -> S::Cost
    ensures the_price_of_its_points_and_of_standing_at_the_goal { result ≡ (S.Scale.measure scale.now).price (over layout.now step.from step.to) (step.from == goal && step.to == goal) }
{
    scale.price(run_over(layout, step), step.from == goal && step.to == goal)
}

// What the steps of a question cost for a train that stands in these sections, one time after the other.
fn steps_cost<S: Scale>(scale: &S, question: &Question, sections: [u8; 17], goal: u8) -> S::Cost
    ensures the_prices_of_the_steps_joined { result ≡ joined (S.Scale.measure scale.now) question.now.steps (λ t. (S.Scale.measure scale.now).price (over question.now.layout.now (slice_index sections t) (slice_index sections (t + 1))) (slice_index sections t == goal && slice_index sections (t + 1) == goal)) }
{
    // this loop and that of `sheet_cost` are no `fold`: the contract of its closure would have to say what it gives at each place
    let mut total = scale.nothing();
    for (at, to) in sections.iter().zip(&sections[1..question.times()]) {
        total = scale.join(
            total,
            move_price(scale, question.layout, Move::new(*at, *to), goal),
        );
    }
    total
}

// What a sheet costs for the question's group.
pub fn sheet_cost<S: Scale>(scale: &S, question: &Question, sheet: &Sheet) -> S::Cost
    ensures at_most_2048_in_size { (S.Scale.measure scale.now).size result ≤ 2048 }
    ensures the_prices_of_all_steps_of_the_group_joined { (k : Conflicts) → result ≡ cost (S.Scale.measure scale.now) (problem_asked k question.now) (marked question.now.group) (plan_of sheet.now) }
{
    let mut total = scale.nothing();
    for ((train, member), sections) in question
        .roster
        .trains()
        .iter()
        .zip(question.marks())
        .zip(&sheet.rows)
    {
        let part = if *member {
            steps_cost(scale, question, *sections, train.goal)
        } else {
            scale.nothing()
        };
        total = scale.join(total, part);
    }
    total
}

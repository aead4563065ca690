ghost use Rattle.std.specs.Prelude.{◌≡◌, ◌<◌, ◌≤◌, false, None};
ghost use Rattle.track.specs.Layouts.{sections_of};
ghost use Rattle.rules.specs.Conflicts.{Conflicts};
ghost use Rattle.roster.specs.Model.{rows_of, closed_of};
ghost use Rattle.sheets.specs.Inquiry.{problem_asked};
ghost use Rattle.single_check.specs.Ways.{Fewest, FewestBetween};
ghost use Rattle.single_check.specs.Marks.{Onward, OnwardFrom, Widened};

use sheets::question::Question;

// Marks the open sections that a link leads to from `a`.
fn mark_neighbours(question: &Question, a: u8, marks: &mut [bool; 32])
    ensures the_open_neighbours_are_marked_too { Widened marks.old (Onward question.now.layout.now question.now.roster.now a) marks.new }
{
    for b in 0..question.layout.sections() {
        if question.layout.points(a, b).is_some() && !question.roster.is_closed(b) {
            marks[usize::from(b)] = true;
        }
    }
}

// One step outward: marks the open sections that a link leads to from one that is reached.
fn spread(question: &Question, reached: &mut [bool; 32])
    ensures one_step_outward { Widened reached.old (OnwardFrom question.now.layout.now question.now.roster.now reached.old) reached.new }
{
    let before = *reached;
    let sections = usize::from(question.layout.sections());
    // it ends at the layout's last section: on a small layout all 32 marks would be most of the work
    // the cast is proved to lose nothing; with `(0u8..).zip(before)` the proof did not close: open was that the number is that of the item
    for (a, marked) in before.iter().enumerate() {
        if a == sections {
            break;
        }
        if *marked {
            mark_neighbours(question, a as u8, reached);
        }
    }
}

// The fewest steps from one section to another, if the question's steps suffice.
fn fewest_between(question: &Question, start: u8, goal: u8) -> Option<usize>
    requires start_inside { start < sections_of question.now.layout.now }
    requires start_open { closed_of question.now.roster.now start ≡ false }
    requires goal_inside { goal < sections_of question.now.layout.now }
    ensures the_fewest_steps_from_one_to_the_other { (k : Conflicts) → FewestBetween (problem_asked k question.now) start goal result }
{
    let mut reached = [false; 32];
    reached[usize::from(start)] = true;
    for steps in 0..question.times() {
        if reached[usize::from(goal)] {
            return Some(steps);
        }
        spread(question, &mut reached);
    }
    None
}

// How many steps the train of a row needs if it is alone; none if the question's steps do not suffice, or if there is no such row.
pub fn fewest_steps(question: &Question, row: usize) -> Option<usize>
    ensures the_fewest_steps_in_which_the_train_reaches_its_goal { (k : Conflicts) → row < rows_of question.now.roster.now → Fewest (problem_asked k question.now) row result }
    ensures none_for_a_row_that_is_not_on_the_roster { rows_of question.now.roster.now ≤ row → result ≡ None }
{
    let train = question.roster.train(row)?;
    fewest_between(question, train.start, train.goal)
}

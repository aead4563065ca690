ghost use Rattle.std.specs.Prelude.{◌≡◌, ℕ, ◌<◌, ◌≤◌, slice_index};
ghost use Rattle.std.proofs.Props.{props};
ghost use Rattle.track.specs.Layouts.{sections_of};
ghost use Rattle.roster.specs.Model.{rows_of};
ghost use Rattle.words.specs.Rows.{ChosenTo, chosen_of};

use crate::board::Board;
use sheets::question::Question;

pub mod answering;
pub mod make;

// What is asked of a question's group: the board of its trains, the rows that they have, where they start, and in how many steps they are to go.
// Every group has 1 to 8 trains, which start on the layout, and 1 to 16 steps.
// It has no `Chosen` for a field: the board has the trains and their goals, and they would stand twice.
#[derive(Drop)]
pub struct Group<'a, S, R> {
    pub question: &'a Question<'a, 'a>,
    pub board: Board<'a, S, R>,
    pub row: [usize; 8],
    pub start: [u8; 8],
    pub steps: usize,
    ghost some: { 1 ≤ board.trains },
    ghost few: { board.trains ≤ 8 },
    ghost begun: { 1 ≤ steps },
    ghost short: { steps ≤ 16 },
    ghost starts: { (i : ℕ) → i < board.trains → slice_index start i < sections_of board.layout.now },
    ghost on_its_layout: { board.layout.now ≡ question.now.layout.now },
    ghost of_its_roster: { board.roster.now ≡ question.now.roster.now },
    ghost in_its_steps: { steps ≡ question.now.steps },
    ghost chosen: { ChosenTo question.now (rows_of question.now.roster.now) (chosen_of board.trains row start board.goal) } by { Prim.hlevel props },
}

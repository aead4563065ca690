ghost use Rattle.std.specs.Prelude.{◌≡◌, false, is_some};
ghost use Rattle.sheets.specs.Posing.{question_declined};

use roster::roster::Roster;
use track::layout::Layout;

pub mod marks;
pub mod times;

// The trains of a group, marked by their rows, are to go from start to goal in so many steps.
// Every question has 1 to 16 steps, a train in its group, and all starts and goals on its layout; the roster keeps them open.
#[derive(Drop)]
pub struct Question<'a, 'b> {
    pub layout: &'a Layout,
    pub roster: &'b Roster,
    pub group: [bool; 8],
    pub steps: usize,
    ghost sound: { is_some (question_declined layout.now roster.now group steps) ≡ false },
}

ghost use Rattle.std.specs.Prelude.{◌≡◌, Ok, Err};
ghost use Rattle.track.specs.Refusals.{refused_by};
ghost use Rattle.track.specs.Layouts.{sections_of};
ghost use Rattle.roster.specs.Trains.{on_layout};
ghost use Rattle.roster.specs.Model.{held, rows_of};
ghost use Rattle.sheets.specs.Problem.{count};
ghost use Rattle.sheets.specs.Posing.{marked, all_rows, question_declined};

use crate::question::Question;
use roster::roster::Roster;
use track::layout::Layout;
use track::refusal::Refusal;

fn all_on(layout: &Layout, roster: &Roster) -> bool
    ensures whether_all_starts_and_goals_are_on_the_layout { result ≡ on_layout (sections_of layout.now) (held roster.now) }
{
    let sections = layout.sections();
    roster
        .trains()
        .iter()
        .all(|train| train.start < sections && train.goal < sections)
}

fn all_rows(roster: &Roster, group: [bool; 8]) -> bool
    ensures whether_all_marks_are_rows { result ≡ all_rows roster.now group }
{
    group[roster.count()..].iter().all(|marked| !*marked)
}

fn how_many_marked(roster: &Roster, group: [bool; 8]) -> usize
    ensures how_many_rows_are_marked { result ≡ count (rows_of roster.now) (marked group) }
{
    group[..roster.count()]
        .iter()
        .filter(|marked| **marked)
        .count()
}

// The question, or why it cannot be asked.
pub fn ask<'a, 'b>(
    layout: &'a Layout,
    roster: &'b Roster,
    group: [bool; 8],
    steps: usize,
) -> Result<Question<'a, 'b>, Refusal>
    ensures the_first_condition_met_declines { refused_by result ≡ question_declined layout.now roster.now group steps }
    ensures the_question_is_as_asked { elim result [ Ok q ↦ (q.layout.now ≡ layout.now) × (q.roster.now ≡ roster.now) × (q.group ≡ group) × (q.steps ≡ steps) | Err e ↦ Unit {0} ] }
{
    if !all_on(layout, roster) {
        return Err(Refusal::NoSuchSection);
    }
    if !all_rows(roster, group) {
        return Err(Refusal::NotOnRoster);
    }
    if steps == 0 || steps > 16 {
        return Err(Refusal::StepsOutOfRange);
    }
    if how_many_marked(roster, group) == 0 {
        return Err(Refusal::RosterEmpty);
    }
    Ok(Question {
        layout,
        roster,
        group,
        steps,
    })
}

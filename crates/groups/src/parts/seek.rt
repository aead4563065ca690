ghost use Rattle.std.specs.Prelude.{◌≡◌, ◌+◌, ◌<◌, not, ◌&&◌, MatchOption, ◌==◌, slice_index};
ghost use Rattle.roster.specs.Model.{rows_of};
ghost use Rattle.sheets.specs.Inquiry.{problem_asked, plan_of};
ghost use Rattle.sheets.specs.Posing.{marked};
ghost use Rattle.groups.specs.Parts.{parts, NoClash, FirstClash};
ghost use Rattle.groups.specs.Model.{naming};

use crate::conflict::Conflict;
use crate::parts::Parts;
use rules::moves::Move;
use rules::rule::Rule;
use sheets::question::Question;
use sheets::sheet::Sheet;

// Whether the moves of two trains in the step that begins at the time `step` conflict, by where they stand at each time.
fn clashes<R: Rule>(
    rule: &R,
    question: &Question,
    one: &[u8; 17],
    other: &[u8; 17],
    step: usize,
) -> bool
    requires { step < 16 }
    ensures whether_their_moves_conflict { result ≡ R.Rule.conflicts rule.now question.now.layout.now (slice_index one.now step) (slice_index one.now (step + 1)) (slice_index other.now step) (slice_index other.now (step + 1)) }
{
    let one = Move::new(one[step], one[step + 1]);
    let other = Move::new(other[step], other[step + 1]);
    rule.conflict(question.layout, one, other)
}

impl Parts {
    // Whether the two rows are of the group, and of different parts.
    fn apart(&self, group: [bool; 8], row: usize, other: usize) -> bool
        requires a_row { row < 8 }
        requires another_row { other < 8 }
        ensures whether_they_are_of_different_parts { result ≡ ((marked group row && marked group other) && not (naming self.now row == naming self.now other)) }
    {
        group[row] && group[other] && self.name(row) != self.name(other)
    }

    // How many parts the question's group has.
    pub fn count(&self, question: &Question) -> usize
        ensures one_for_each_row_that_its_part_goes_by { result ≡ parts (rows_of question.now.roster.now) (marked question.now.group) (naming self.now) }
    {
        (0..question.roster.count())
            .filter(|&row| question.group[row] && self.names[row] == row)
            .count()
    }

    // The first conflict between rows of different parts: the lowest step, then the lowest row, then the lowest other row.
    pub fn first_conflict<R: Rule>(
        &self,
        rule: &R,
        question: &Question,
        sheet: &Sheet,
    ) -> Option<Conflict>
        ensures the_first_conflict_between_parts_or_none { MatchOption result (NoClash (problem_asked (R.Rule.conflicts rule.now question.now.layout.now) question.now) (marked question.now.group) (naming self.now) (plan_of sheet.now)) (λ c. FirstClash (problem_asked (R.Rule.conflicts rule.now question.now.layout.now) question.now) (marked question.now.group) (naming self.now) (plan_of sheet.now) c.step c.row c.other) }
    {
        let rows = question.roster.count();
        // three loops, left at the first conflict: a chain would carry a triple through two more closures
        'seek: {
            for step in 0..question.steps {
                for row in 0..rows {
                    for other in row + 1..rows {
                        if self.apart(question.group, row, other)
                            && clashes(rule, question, &sheet.rows[row], &sheet.rows[other], step)
                        {
                            break 'seek Some(Conflict { step, row, other });
                        }
                    }
                }
            }
            None
        }
    }
}

ghost use Rattle.std.specs.Prelude.{◌≡◌, ◌+◌, ◌≤◌, nat_eq, slice_index};
ghost use Rattle.sheets.specs.Problem.{all};
ghost use Rattle.sheets.specs.Inquiry.{inquired, plan_of};
ghost use Rattle.sheets.specs.Posing.{marked};
ghost use Rattle.sheets.specs.Theorems.{AtMostOneIsBest, BestOrNone, Agreeing, same_rows};
ghost use Rattle.roster.specs.Model.{rows_of};

use crate::asked::Asked;
use crate::question::Question;
use crate::sheet::Sheet;
use rules::rule::Rule;
use scales::scale::Scale;

fn same_row(x: [u8; 17], y: [u8; 17], times: usize) -> bool
    requires { times ≤ 17 }
    ensures whether_the_rows_are_the_same { result ≡ all times (λ t. nat_eq (slice_index x t) (slice_index y t)) }
{
    x[..times] == y[..times]
}

fn same_rows(question: &Question, a: &Sheet, b: &Sheet) -> bool
    ensures whether_the_rows_of_the_group_are_the_same { result ≡ same_rows (rows_of question.now.roster.now) question.now.steps (marked question.now.group) (plan_of a.now) (plan_of b.now) }
{
    // a row numbers the marks and both sheets alike, so it is counted
    let times = question.times();
    (0..question.roster.count()).all(|row| !question.group[row]
        || same_row(a.rows[row], b.rows[row], times))
}

// Whether two sheets count as one for the question: they differ nowhere in the group's rows at times 0 to the last.
pub fn agree<R: Rule, S: Scale>(asked: &Asked<R, S>, a: &Sheet, b: &Sheet) -> bool
    ensures true_exactly_if_they_count_as_one { Agreeing (inquired R.Rule.conflicts S.Scale.measure asked.now) (plan_of a.now) (plan_of b.now) result }
    ensures at_most_one_sheet_is_best { AtMostOneIsBest (inquired R.Rule.conflicts S.Scale.measure asked.now) }
    ensures a_group_has_a_best_sheet_or_no_lawful_one { BestOrNone (inquired R.Rule.conflicts S.Scale.measure asked.now) }
{
    same_rows(asked.question, a, b)
}

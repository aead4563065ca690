ghost use Rattle.std.specs.Prelude.{◌≡◌, length};
ghost use Rattle.sheets.specs.Posing.{marked};
ghost use Rattle.sheets.specs.Inquiry.{inquired};
ghost use Rattle.search.specs.Answers.{SameMeaning, Answered, OthersKept};
ghost use Rattle.groups.specs.Parts.{alone};
ghost use Rattle.grouping.specs.Ends.{about, Told};
ghost use Rattle.grouping.specs.Asking.{SomeRows, OrEnds, Stand, EndsIn};

use groups::parts::Parts;
use rules::rule::Rule;
use scales::scale::Scale;
use search::answer::Answer;
use search::search::Search;
use sheets::asked::Asked;
use sheets::price::sheet_cost;
use sheets::question::Question;
use sheets::sheet::Sheet;

// The four parameters that these functions share are no struct with methods: behind a `&mut self` each clause would have to add
// that what is asked and the number of cells stay. So clauses name what is taken below, what is asked and the number of cells
// side by side: one word for the three would be given the same terms.

// Asks below for some rows of the question's group.
fn ask_for<S: Scale, R: Rule, Q: Search<S>>(
    below: &mut Q,
    asked: &Asked<R, S>,
    marks: [bool; 8],
    cells: &mut [Option<S::Cost>],
    draft: &mut Sheet,
) -> Answer<S::Cost>
    requires some_rows { SomeRows asked.now.question.now marks }
    ensures asking_leaves_the_meaning { SameMeaning (Q.Search.takes below.new) (Q.Search.takes below.old) }
    ensures the_answer_is_right { Answered (about (inquired R.Rule.conflicts S.Scale.measure asked.now) (marked marks)) (Q.Search.takes below.old (about (inquired R.Rule.conflicts S.Scale.measure asked.now) (marked marks)) (length cells.old)) draft.old draft.new result }
{
    let question = asked.question;
    // by each field: `..` cannot fill a struct with an invariant
    let part = Question {
        layout: question.layout,
        roster: question.roster,
        group: marks,
        steps: question.steps,
    };
    let asked = Asked {
        question: &part,
        ..*asked
    };
    below.search(&asked, cells, draft)
}

// Asks below for each train of the group alone, in rising order.
fn ask_each_alone<S: Scale, R: Rule, Q: Search<S>>(
    below: &mut Q,
    asked: &Asked<R, S>,
    cells: &mut [Option<S::Cost>],
    draft: &mut Sheet,
) -> Answer<()>
    ensures asking_leaves_the_meaning { SameMeaning (Q.Search.takes below.new) (Q.Search.takes below.old) }
    ensures each_stands_or_the_course_has_ended { OrEnds (Q.Search.takes below.old) (inquired R.Rule.conflicts S.Scale.measure asked.now) (length cells.old) (λ _. Stand (Q.Search.takes below.old) (inquired R.Rule.conflicts S.Scale.measure asked.now) (length cells.old) alone draft.new) result }
    ensures other_places_are_as_they_were { OthersKept (inquired R.Rule.conflicts S.Scale.measure asked.now) draft.old draft.new }
{
    let parts = Parts::alone();
    let question = asked.question;
    let members = question.marks();
    for (row, member) in members.iter().enumerate() {
        if *member {
            let marks = parts.marks(question.group, row);
            ask_for(below, asked, marks, cells, draft)?;
        }
    }
    Ok(())
}

// As long as two groups conflict, joins the two that conflict first and asks below for them as one. Tells how many groups are left.
fn join_conflicting<S: Scale, R: Rule, Q: Search<S>>(
    below: &mut Q,
    asked: &Asked<R, S>,
    cells: &mut [Option<S::Cost>],
    draft: &mut Sheet,
) -> Answer<usize>
    requires each_alone_stands { Stand (Q.Search.takes below.old) (inquired R.Rule.conflicts S.Scale.measure asked.now) (length cells.old) alone draft.old }
    ensures asking_leaves_the_meaning { SameMeaning (Q.Search.takes below.new) (Q.Search.takes below.old) }
    ensures so_many_groups_stand_or_the_course_has_ended { OrEnds (Q.Search.takes below.old) (inquired R.Rule.conflicts S.Scale.measure asked.now) (length cells.old) (λ n. EndsIn (Q.Search.takes below.old) (inquired R.Rule.conflicts S.Scale.measure asked.now) (length cells.old) draft.new n) result }
    ensures other_places_are_as_they_were { OthersKept (inquired R.Rule.conflicts S.Scale.measure asked.now) draft.old draft.new }
{
    let question = asked.question;
    let mut parts = Parts::alone();
    while let Some(conflict) = parts.first_conflict(asked.rule, question, draft) {
        parts = parts.joined(conflict.row, conflict.other);
        let marks = parts.marks(question.group, conflict.row);
        ask_for(below, asked, marks, cells, draft)?;
    }
    Ok(parts.count(question))
}

// Follows the course of the grouping on a sheet of its own, and writes the sheet only where one is found.
// Apart from `plan`, whose further clauses are then proved once, and not at each way out of the course.
pub(crate) fn follow<S: Scale, R: Rule, Q: Search<S>>(
    below: &mut Q,
    asked: &Asked<R, S>,
    cells: &mut [Option<S::Cost>],
    sheet: &mut Sheet,
) -> Answer<(S::Cost, usize)>
    ensures asking_leaves_the_meaning { SameMeaning (Q.Search.takes below.new) (Q.Search.takes below.old) }
    ensures the_answer_is_how_the_course_ends { Told (Q.Search.takes below.old) (inquired R.Rule.conflicts S.Scale.measure asked.now) (length cells.old) sheet.old sheet.new result }
{
    let mut draft = *sheet;
    ask_each_alone(below, asked, cells, &mut draft)?;
    let groups = join_conflicting(below, asked, cells, &mut draft)?;
    let cost = sheet_cost(asked.scale, asked.question, &draft);
    *sheet = draft;
    Ok((cost, groups))
}

ghost use Rattle.roster.specs.Model.{rows_of};
ghost use Rattle.words.specs.Rows.{ChosenTo};

use crate::chosen::Chosen;
use sheets::question::Question;

// The rows of the question's group in rising order.
pub fn choose(question: &Question) -> Chosen
    ensures the_rows_of_the_group_in_rising_order { ChosenTo question.now (rows_of question.now.roster.now) result }
{
    let mut chosen = Chosen {
        trains: 0,
        row: [0; 8],
        start: [0; 8],
        goal: [0; 8],
    };
    for (row, &train) in question.roster.trains().iter().enumerate() {
        if question.group[row] {
            chosen.add(row, train);
        }
    }
    chosen
}

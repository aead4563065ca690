ghost use Rattle.words.specs.Tasks.{GroupOf};

use crate::board::Board;
use crate::choose::choose;
use crate::chosen::Chosen;
use crate::group::Group;
use sheets::asked::Asked;

impl<'a, S, R> Group<'a, S, R> {
    // What is asked of the rows of the question's group.
    pub fn of(asked: &Asked<'a, R, S>) -> Group<'a, S, R>
        ensures what_is_asked_of_the_group { GroupOf asked.now result }
    {
        let question = asked.question;
        let Chosen {
            trains,
            row,
            start,
            goal,
        } = choose(question);
        Group {
            question,
            board: Board {
                scale: asked.scale,
                rule: asked.rule,
                layout: question.layout,
                roster: question.roster,
                trains,
                goal,
            },
            row,
            start,
            steps: question.steps,
        }
    }
}

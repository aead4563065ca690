use crate::guide::Guide;
use crate::in_words::InWords;
use roster::roster::Roster;
use roster::train::Train;
use rules::clear_section::ClearSection;
use rules::following::Following;
use rules::rule::Rule;
use scales::steps::Steps;
use scales::steps_then_points::StepsThenPoints;
use search::answer::Unplanned;
use search::search::Search;
use sheets::asked::Asked;
use sheets::everyone::everyone;
use sheets::pose::ask;
use sheets::question::Question;
use sheets::sheet::Sheet;
use std::io;
use track::layout::Layout;

impl Guide<'_> {
    // The walk uses no cell, so a worksheet of one does for any group.
    fn plan<S: InWords, R: Rule>(
        &mut self,
        name: &str,
        asked: &Asked<R, S>,
        cells: &mut [Option<S::Cost>],
    ) -> io::Result<()> {
        println!(self.rt; "{name}, {}", S::ORDER)?;
        let mut sheet = Sheet::default();
        match self.walk.search(asked, cells, &mut sheet) {
            Err(Unplanned::BeyondReach) => println!(self.rt; "  the group is beyond reach"),
            Err(Unplanned::NoSheet) => println!(self.rt; "  there is no lawful sheet"),
            Ok(cost) => {
                self.show_sheet(asked.question, &sheet)?;
                print!(self.rt; "  cost ")?;
                asked.scale.say(self.rt, cost)?;
                println!(self.rt; "")
            }
        }
    }

    // Plans under a rule, by each scale.
    fn plan_under<R: Rule>(&mut self, name: &str, rule: &R, question: &Question) -> io::Result<()> {
        let by_steps = Asked {
            rule,
            scale: &Steps,
            question,
        };
        let by_points = Asked {
            rule,
            scale: &StepsThenPoints,
            question,
        };
        self.plan(name, &by_steps, &mut [None])?;
        self.plan(name, &by_points, &mut [None])
    }

    fn plan_all(&mut self, question: &Question) -> io::Result<()> {
        self.show_question(question)?;
        self.plan_under("following", &Following, question)?;
        self.plan_under("clear section", &ClearSection, question)
    }

    // Two trains, both of them in the group, in so many steps.
    fn plan_two(&mut self, layout: &Layout, trains: [Train; 2], steps: usize) -> io::Result<()> {
        let roster = match Roster::of(layout, &trains) {
            Ok(roster) => roster,
            Err(refusal) => return self.show_refusal("the roster", refusal),
        };
        match ask(layout, &roster, everyone(&roster), steps) {
            Ok(question) => self.plan_all(&question),
            Err(refusal) => self.show_refusal("the question", refusal),
        }
    }

    pub fn plan_throat(&mut self, layout: &Layout) -> io::Result<()> {
        let up = Train {
            number: 12,
            start: 0,
            goal: 3,
        };
        let down = Train { goal: 7, ..up };
        let opposing = Train {
            number: 27,
            start: 3,
            goal: 4,
        };
        self.plan_two(layout, [up, opposing], 4)?;
        self.plan_two(layout, [down, opposing], 3)?;
        self.plan_two(layout, [down, opposing], 4)
    }
}

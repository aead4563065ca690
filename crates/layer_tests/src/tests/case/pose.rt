use crate::tests::case::Case;
use roster::roster::Roster;
use sheets::everyone::everyone;
use sheets::pose::ask;
use sheets::question::Question;
use track::drawing::Drawing;
use track::layout::Layout;
use track::refusal::Refusal;

impl Case<'_> {
    fn layout(&self) -> Result<Layout, Refusal> {
        let mut drawing = Drawing::new();
        drawing.add_sections(self.sections)?;
        // The tests of the searches draw theirs alike. A call for both would be no plainer: the loop is one line, while that call would owe a promise of
        // its own, and of what is drawn where a link half way is declined.
        for &(a, b, points) in self.links {
            drawing.add_link(a, b, points)?;
        }
        Ok(drawing.finish())
    }

    // What is told of the question of all trains.
    pub(crate) fn told<T, F: FnOnce(&Question) -> T>(&self, tell: F) -> Result<T, Refusal>
        requires { F.IsAlwaysCallable tell }
    {
        let layout = self.layout()?;
        let roster = Roster::of(&layout, self.trains)?;
        let question = ask(&layout, &roster, everyone(&roster), self.steps)?;
        Ok(tell(&question))
    }
}

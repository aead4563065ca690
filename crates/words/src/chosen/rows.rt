ghost use Rattle.std.specs.Prelude.{◌≡◌, ◌<◌};
ghost use Rattle.words.specs.Rows.{added};

use crate::chosen::Chosen;
use roster::train::Train;

impl Chosen {
    // One row more.
    pub(crate) fn add(&mut self, row: usize, train: Train)
        requires { self.old.trains < 8 }
        ensures one_row_more { self.new ≡ added self.old row train.start train.goal }
    {
        let place = self.trains;
        self.row[place] = row;
        self.start[place] = train.start;
        self.goal[place] = train.goal;
        self.trains = place + 1;
    }
}

ghost use Rattle.std.specs.Prelude.{◌≡◌, ◌*◌};

use crate::case::Case;
use roster::roster::Roster;
use roster::train::Train;
use track::drawing::Drawing;
use track::layout::Layout;
use track::refusal::Refusal;

impl Case {
    pub(crate) fn sections(&self) -> usize
        ensures those_of_both_lines { result ≡ self.now.half * 2 }
    {
        usize::from(self.half) * 2
    }

    // The number of cells that the table needs: sections to the power of the trains, for each time.
    pub(crate) fn cells(&self) -> usize {
        // `as` is proved to lose nothing here, and `u32::try_from(self.trains).unwrap()` would say no more
        self.sections().pow(self.trains as u32) * (self.steps + 1)
    }

    pub(crate) fn layout(&self) -> Result<Layout, Refusal> {
        let half = self.half;
        let mut drawing = Drawing::new();
        drawing.add_sections(half * 2)?;
        // no table to go over: the ends of the links follow from `half`
        for i in 1..half {
            drawing.add_link(i - 1, i, 0)?;
            drawing.add_link(half + i - 1, half + i, 0)?;
            if i % 3 == 1 && i + 1 < half {
                drawing.add_link(i, half + i + 1, 2)?;
            }
        }
        Ok(drawing.finish())
    }

    pub(crate) fn roster(&self, layout: &Layout) -> Result<Roster, Refusal> {
        let Case { half, far, .. } = *self;
        let all = [
            Train {
                number: 1,
                start: 0,
                goal: far,
            },
            Train {
                number: 2,
                start: far,
                goal: 0,
            },
            Train {
                number: 3,
                start: half,
                goal: half + far,
            },
        ];
        Roster::of(layout, &all[..self.trains])
    }
}

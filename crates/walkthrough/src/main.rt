// From an empty drawing to a printed plan: a small throat, two trains that meet in it, and the walk search.
#![tactic(auto)]

mod declined;
mod guide;
mod in_words;
mod row;

use crate::guide::Guide;
use std::io;
use track::drawing::Drawing;
use track::refusal::Refusal;
use walk::walk::Walk;

// The ends of each link, and the points that it runs over: the up line 0-1-2-3 and the down line 4-5-6-7, two crossovers and a platform loop
// at 8.
// A `Link` for each would be no plainer: it takes five lines for one, and the call that draws it takes the three numbers.
const LINKS: [(u8, u8, u8); 10] = [
    (0, 1, 0),
    (1, 2, 2),
    (2, 3, 1),
    (4, 5, 0),
    (5, 6, 1),
    (6, 7, 0),
    (1, 6, 2),
    (2, 5, 2),
    (1, 8, 1),
    (3, 8, 1),
];

// Draws these links; the crossovers cross on the ground.
fn draw_throat(drawing: &mut Drawing) -> Result<(), Refusal> {
    drawing.add_sections(9)?;
    // A call that takes the table would be no plainer: the throat is this program's own and the loop is one line, while that call would owe a
    // promise of its own, and of what is drawn where a link half way is declined.
    for (a, b, points) in LINKS {
        drawing.add_link(a, b, points)?;
    }
    drawing.add_foul(1, 6, 2, 5)
}

fn main(rt: HostRuntime) -> io::Result<()> {
    let walk = Walk::new(2).unwrap();
    let mut guide = Guide { rt: &rt, walk };
    let mut drawing = Drawing::new();
    if let Err(refusal) = draw_throat(&mut drawing) {
        return guide.show_refusal("the throat", refusal);
    }
    if let Err(refusal) = drawing.add_link(1, 0, 3) {
        guide.show_refusal("a second link between 1 and 0", refusal)?;
    }
    let layout = drawing.finish();
    guide.show_layout(&layout)?;
    guide.plan_throat(&layout)
}

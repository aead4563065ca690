// A shift at a station: trains are entered and withdrawn, a section is closed and opened again, and sheets are planned, under both scales.
// Prints each call with its reply, and each sheet.
#![tactic(auto)]

mod in_words;
mod office;
mod row;
mod spoken;

use crate::in_words::InWords;
use crate::office::Office;
use planner::planner::Planner;
use rules::following::Following;
use scales::steps::Steps;
use scales::steps_then_points::StepsThenPoints;
use single_check::check::Check;
use std::io;
use table::table::Table;
use track::drawing::Drawing;
use track::layout::Layout;
use track::refusal::Refusal;

// The ends of each link, and the points that it runs over: the up line 0-1-2-3 and the down line 4-5-6-7, two crossovers, a platform loop at 8
// and a siding at 9.
// A `Link` for each would be no plainer: it takes five lines for one, and the call that draws it takes the three numbers.
const LINKS: [(u8, u8, u8); 11] = [
    (0, 1, 0),
    (1, 2, 2),
    (2, 3, 1),
    (4, 5, 0),
    (5, 6, 1),
    (6, 7, 0),
    (1, 6, 2),
    (2, 5, 2),
    (1, 8, 1),
    (3, 8, 1),
    (6, 9, 1),
];

// The layout of these links, on which the crossovers cross on the ground.
fn throat() -> Result<Layout, Refusal> {
    let mut drawing = Drawing::new();
    drawing.add_sections(10)?;
    // A call that takes the table would be no plainer: the throat is this program's own and the loop is one line, while that call would owe a
    // promise of its own, and of what is drawn where a link half way is declined.
    for (a, b, points) in LINKS {
        drawing.add_link(a, b, points)?;
    }
    drawing.add_foul(1, 6, 2, 5)?;
    Ok(drawing.finish())
}

// A shift under a scale.
fn work<S: InWords + Copy>(
    rt: &HostRuntime,
    scale: S,
    title: &str,
    cells: &mut [Option<S::Cost>],
) -> io::Result<()> {
    match throat() {
        Ok(layout) => {
            println!(rt; "{title}")?;
            let table = Table::new(rt.alloc())?;
            let planner = Planner::new(layout, Following, scale, Check::over(table));
            let mut office = Office {
                rt,
                scale,
                planner,
                cells,
            };
            office.shift()
        }
        Err(refusal) => println!(rt; "the throat: declined with {refusal:?}"),
    }
}

fn main(rt: HostRuntime) -> io::Result<()> {
    work(&rt, Steps, "by steps", &mut [None; 1000])?;
    work(
        &rt,
        StepsThenPoints,
        "by steps, then points",
        &mut [None; 1000],
    )
}

use crate::tests::act::{Act, number_of, play};
use std::process::Abort;
use std::test::Fail;
use track::drawing::Drawing;
use track::layout::Layout;
use track::refusal::Refusal;

// A call that draws, or several at once.
enum Draw {
    Sections(u8),
    Link(u8, u8, u8),
    Foul(u8, u8, u8, u8),
    // links the first so many pairs of the sections up to 31: 0-1, 0-2 ..
    Links(u8),
    // fouls the first so many pairs of the links 0-1 to 0-9
    Fouls(u8),
}

use Draw::{Foul, Fouls, Link, Links, Sections};

// Draws so many of the pairs of the numbers `from` to `last`.
fn draw_pairs(
    drawing: &mut Drawing,
    from: u8,
    last: u8,
    count: u8,
    fouls: bool,
) -> Result<(), Refusal> {
    let mut left = count;
    for a in from..=last {
        for b in a..=last {
            if a != b && left > 0 {
                left -= 1;
                if fouls {
                    drawing.add_foul(0, a, 0, b)?;
                } else {
                    drawing.add_link(a, b, 0)?;
                }
            }
        }
    }
    Ok(())
}

impl Act<Drawing> for Draw {
    fn on(&self, drawing: &mut Drawing) -> u8 {
        number_of(match *self {
            Sections(k) => drawing.add_sections(k),
            Link(a, b, points) => drawing.add_link(a, b, points),
            Foul(a, b, c, d) => drawing.add_foul(a, b, c, d),
            Links(count) => draw_pairs(drawing, 0, 31, count, false),
            Fouls(count) => draw_pairs(drawing, 1, 9, count, true),
        })
    }
}

// Whether both layouts answer every lookup of points alike.
fn same_points(one: &Layout, other: &Layout) -> bool {
    one.sections() == other.sections()
        && (0..34u8).all(|a| (0..34u8).all(|b| one.points(a, b) == other.points(a, b)))
        && (0..34u8).all(|a| one.neighbours(a) == other.neighbours(a))
}

// Whether both layouts have the same fouls of links at the sections up to 9.
fn same_fouls(one: &Layout, other: &Layout) -> bool {
    (0..100u8).all(|i| (0..100u8).all(|j| {
        one.fouls(i / 10, i % 10, j / 10, j % 10) == other.fouls(i / 10, i % 10, j / 10, j % 10)
    }))
}

// Plays a script on two blank drawings, and sees that they are finished as the same layout.
fn drawn(rt: &impl Abort, script: &[(Draw, u8)]) {
    let mut all = Drawing::new();
    let mut only = Drawing::new();
    play(rt, script, &mut all, &mut only);
    let all = all.finish();
    let only = only.finish();
    assert!(rt; same_points(&all, &only));
    assert!(rt; same_fouls(&all, &only));
}

#[test]
fn sections(rt: HostRuntime) -> Result<(), Fail> {
    drawn(
        &rt,
        &[
            (Sections(33), 2),
            (Sections(32), 0),
            (Sections(0), 0),
            (Sections(1), 2),
            (Sections(255), 2),
        ],
    );
    drawn(
        &rt,
        &[
            (Sections(31), 0),
            (Sections(2), 2),
            (Sections(1), 0),
            (Sections(1), 2),
        ],
    );
    Ok(())
}

#[test]
fn links(rt: HostRuntime) -> Result<(), Fail> {
    drawn(
        &rt,
        &[
            (Link(0, 1, 0), 1),
            (Sections(4), 0),
            (Link(3, 2, 0), 0),
            (Link(4, 0, 0), 1),
            (Link(0, 4, 0), 1),
            // 1 before 3 and 4
            (Link(4, 4, 8), 1),
            (Link(3, 3, 0), 3),
            // 3 before 4
            (Link(0, 0, 8), 3),
            (Link(0, 1, 8), 4),
            (Link(0, 1, 255), 4),
            (Link(0, 1, 7), 0),
            (Link(0, 1, 7), 5),
            (Link(1, 0, 0), 5),
            // 4 before 5
            (Link(1, 0, 8), 4),
        ],
    );
    drawn(
        &rt,
        &[
            (Sections(32), 0),
            (Links(63), 0),
            (Link(31, 30, 1), 0),
            (Link(31, 29, 1), 6),
            // 1, 3, 4 and 5 before 6
            (Link(32, 29, 1), 1),
            (Link(29, 29, 1), 3),
            (Link(31, 29, 8), 4),
            (Link(30, 31, 1), 5),
        ],
    );
    Ok(())
}

#[test]
fn fouls(rt: HostRuntime) -> Result<(), Fail> {
    drawn(
        &rt,
        &[
            (Sections(6), 0),
            (Link(0, 1, 0), 0),
            (Link(2, 3, 0), 0),
            (Link(4, 5, 0), 0),
            // 1 before 7, at each place
            (Foul(6, 1, 2, 3), 1),
            (Foul(0, 6, 2, 3), 1),
            (Foul(0, 1, 6, 3), 1),
            (Foul(0, 1, 2, 6), 1),
            (Foul(0, 2, 2, 3), 7),
            (Foul(0, 1, 2, 4), 7),
            // 7 before 8
            (Foul(0, 2, 2, 0), 7),
            (Foul(5, 4, 5, 4), 8),
            (Foul(5, 4, 4, 5), 8),
            (Foul(5, 4, 1, 0), 0),
            (Foul(5, 4, 1, 0), 9),
            (Foul(0, 1, 5, 4), 9),
            (Foul(1, 0, 4, 5), 9),
            (Foul(0, 1, 2, 3), 0),
        ],
    );
    drawn(
        &rt,
        &[
            (Sections(10), 0),
            (Links(9), 0),
            (Fouls(31), 0),
            (Foul(0, 6, 8, 0), 0),
            (Foul(0, 6, 0, 9), 10),
            // 1, 7, 8 and 9 before 10
            (Foul(0, 6, 0, 10), 1),
            (Foul(0, 6, 1, 9), 7),
            (Foul(0, 6, 6, 0), 8),
            (Foul(8, 0, 0, 6), 9),
        ],
    );
    Ok(())
}

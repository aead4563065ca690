ghost use Rattle.std.specs.Prelude.{◌≤◌, length};

use roster::roster::Roster;
use roster::train::Train;
use rules::clear_section::ClearSection;
use rules::following::Following;
use rules::rule::Rule;
use scales::pair::Pair;
use scales::scale::Scale;
use scales::steps::Steps;
use scales::steps_then_points::StepsThenPoints;
use search::answer::{Answer, Unplanned};
use search::search::Search;
use sheets::asked::Asked;
use sheets::everyone::everyone;
use sheets::pose::ask;
use sheets::sheet::Sheet;
use std::alloc::Global;
use std::process::Abort;
use std::test::Fail;
use table::table::Table;
use track::drawing::Drawing;
use track::layout::Layout;
use track::refusal::Refusal;
use walk::walk::Walk;

// The ends of each link, and the points that it runs over: 0-1 leads to a ring 1-2-3-4.
// A `Link` for each would be no plainer: it takes five lines for one, and the call that draws it takes the three numbers.
// The tests of the layers have this ring, these trains and this blank sheet too: two test crates share no crate of their own, and a test is no
// plainer where its expected values lie in another crate than what they follow from.
const RING: [(u8, u8, u8); 5] = [(0, 1, 0), (1, 2, 2), (2, 3, 1), (1, 4, 1), (3, 4, 1)];

const SEVEN: Train = Train {
    number: 7,
    start: 0,
    goal: 3,
};

const NINE: Train = Train {
    number: 9,
    start: 3,
    goal: 0,
};

// A sheet that holds 31 wherever nothing was written.
const BLANK: Sheet = Sheet {
    rows: [[31; 17]; 8],
};

fn row(sections: &[u8]) -> [u8; 17]
    requires { length sections.now ≤ 17 }
{
    let mut all = [31; 17];
    all[..sections.len()].copy_from_slice(sections);
    all
}

fn ring() -> Result<Layout, Refusal> {
    let mut drawing = Drawing::new();
    drawing.add_sections(5)?;
    // The tests of the layers draw theirs alike. A call for both would be no plainer: the loop is one line, while that call would owe a promise of
    // its own, and of what is drawn where a link half way is declined.
    for (a, b, points) in RING {
        drawing.add_link(a, b, points)?;
    }
    Ok(drawing.finish())
}

// The answer of a search to all trains of a roster together, and the sheet.
// Trains and steps go through two functions. A type for both would be no plainer: each test names them once, in the call.
fn planned<S: Scale, R: Rule, Q: Search<S>>(
    search: &mut Q,
    rule: &R,
    scale: &S,
    cells: &mut [Option<S::Cost>],
    trains: &[Train],
    steps: usize,
) -> Result<(Answer<S::Cost>, Sheet), Refusal> {
    let layout = ring()?;
    let roster = Roster::of(&layout, trains)?;
    let question = ask(&layout, &roster, everyone(&roster), steps)?;
    let asked = Asked {
        rule,
        scale,
        question: &question,
    };
    let mut sheet = BLANK;
    let answer = search.search(&asked, cells, &mut sheet);
    Ok((answer, sheet))
}

// The walk's answer by steps; the table's with just so many cells is the same, and with one fewer the group is beyond its reach.
fn by_both<R: Rule>(
    rt: &impl Abort,
    alloc: Global,
    rule: &R,
    cells: &mut [Option<u16>],
    trains: &[Train],
    steps: usize,
) -> Result<(Answer<u16>, Sheet), Fail>
    requires { 1 ≤ length cells.old }
{
    let mut walk = Walk::new(2)?;
    let told = planned(&mut walk, rule, &Steps, &mut [None], trains, steps)?;
    let mut table = Table::new(alloc)?;
    let again = planned(&mut table, rule, &Steps, cells, trains, steps)?;
    assert_eq!(rt; again, told);
    let fewer = cells.len() - 1;
    let beyond = planned(&mut table, rule, &Steps, &mut cells[..fewer], trains, steps)?;
    assert_eq!(rt; beyond, (Err(Unplanned::BeyondReach), BLANK));
    Ok(told)
}

#[test]
fn alone_by_steps(rt: HostRuntime) -> Result<(), Fail> {
    let (answer, sheet) = by_both(&rt, rt.alloc(), &Following, &mut [None; 25], &[SEVEN], 4)?;
    assert_eq!(rt; answer, Ok(3));
    assert_eq!(rt; sheet.rows[0], row(&[0, 1, 2, 3, 3]));
    assert_eq!(rt; sheet.rows[1], BLANK.rows[1]);
    Ok(())
}

#[test]
fn alone_by_points(rt: HostRuntime) -> Result<(), Fail> {
    let mut walk = Walk::new(2)?;
    let told = planned(
        &mut walk,
        &Following,
        &StepsThenPoints,
        &mut [None],
        &[SEVEN],
        4,
    )?;
    let again = planned(
        &mut Table::new(rt.alloc())?,
        &Following,
        &StepsThenPoints,
        &mut [None; 25],
        &[SEVEN],
        4,
    )?;
    assert_eq!(rt; again, told);
    let (answer, sheet) = told;
    let cost = Pair {
        steps: 3,
        points: 2,
    };
    assert_eq!(rt; answer, Ok(cost));
    assert_eq!(rt; sheet.rows[0], row(&[0, 1, 4, 3, 3]));
    Ok(())
}

#[test]
fn two_following(rt: HostRuntime) -> Result<(), Fail> {
    let (answer, sheet) = by_both(
        &rt,
        rt.alloc(),
        &Following,
        &mut [None; 125],
        &[SEVEN, NINE],
        4,
    )?;
    assert_eq!(rt; answer, Ok(6));
    assert_eq!(rt; sheet.rows[0], row(&[0, 1, 4, 3, 3]));
    assert_eq!(rt; sheet.rows[1], row(&[3, 2, 1, 0, 0]));
    Ok(())
}

#[test]
fn two_with_clear_sections(rt: HostRuntime) -> Result<(), Fail> {
    let (answer, sheet) = by_both(
        &rt,
        rt.alloc(),
        &ClearSection,
        &mut [None; 125],
        &[NINE, SEVEN],
        4,
    )?;
    assert_eq!(rt; answer, Ok(7));
    assert_eq!(rt; sheet.rows[0], row(&[0, 1, 4, 3, 3]));
    assert_eq!(rt; sheet.rows[1], row(&[3, 2, 2, 1, 0]));
    Ok(())
}

#[test]
fn none_in_three_steps(rt: HostRuntime) -> Result<(), Fail> {
    let told = by_both(
        &rt,
        rt.alloc(),
        &ClearSection,
        &mut [None; 100],
        &[SEVEN, NINE],
        3,
    )?;
    assert_eq!(rt; told, (Err(Unplanned::NoSheet), BLANK));
    Ok(())
}

use crate::tests::act::number_of;
use planner::planner::Planner;
use roster::train::Train;
use rules::clear_section::ClearSection;
use rules::following::Following;
use rules::rule::Rule;
use scales::steps::Steps;
use search::search::Search;
use sheets::sheet::Sheet;
use std::process::Abort;
use std::test::Fail;
use table::table::Table;
use track::drawing::Drawing;
use track::layout::Layout;
use track::refusal::Refusal;
use walk::walk::Walk;

// The loop: 0-1 leads to a ring 1-2-3-4; and a section 5 to which nothing leads.
// A `Link` for each would be no plainer: it takes five lines for one, and the call that draws it takes the three numbers.
const LOOP: [(u8, u8, u8); 5] = [(0, 1, 0), (1, 2, 2), (2, 3, 1), (1, 4, 1), (3, 4, 1)];

// Two trains that change places.
const SEVEN: Train = Train {
    number: 7,
    start: 0,
    goal: 3,
};

const NINE: Train = Train {
    number: 9,
    start: 3,
    goal: 0,
};

// A train that cannot leave 5, which is there only on a layout of six sections.
const STUCK: Train = Train {
    number: 11,
    start: 5,
    goal: 2,
};

// A sheet that holds 31 wherever nothing was written.
const BLANK: Sheet = Sheet {
    rows: [[31; 17]; 8],
};

fn layout_of(sections: u8) -> Result<Layout, Refusal> {
    let mut drawing = Drawing::new();
    drawing.add_sections(sections)?;
    for (a, b, points) in LOOP {
        drawing.add_link(a, b, points)?;
    }
    Ok(drawing.finish())
}

fn planner_of<R: Rule + Drop, Q: Search<Steps> + Drop>(
    sections: u8,
    trains: &[Train],
    rule: R,
    below: Q,
) -> Result<Planner<R, Steps, Q>, Refusal> {
    let mut planner = Planner::new(layout_of(sections)?, rule, Steps, below);
    for train in trains {
        planner.enter(*train)?;
    }
    Ok(planner)
}

// Plans in each of these numbers of steps with each of these numbers of cells, and sees which number declines it, and that the sheet and the
// trains are then as they were.
fn declines<R: Rule, Q: Search<Steps>>(
    rt: &impl Abort,
    planner: &mut Planner<R, Steps, Q>,
    trains: &[Train],
    cases: &[(usize, usize, u8)],
) {
    for (steps, cells, number) in cases {
        let mut sheet = BLANK;
        let answer = planner.plan(*steps, &mut [None; 500][..(*cells).min(500)], &mut sheet);
        let passes = answer.is_ok();
        assert_eq!(rt;
            number_of(answer.map(|_| ())),
            *number,
            "{steps} steps, {cells} cells"
        );
        assert!(rt; passes || sheet == BLANK);
        assert!(rt; planner.roster().trains() == trains);
    }
}

// One joint position of both trains for each time is 125 cells; 25 are enough for each alone, and 24 for none.
#[test]
fn the_cells_of_two_that_change_places(rt: HostRuntime) -> Result<(), Fail> {
    let both = [SEVEN, NINE];
    let mut planner = planner_of(5, &both, Following, Table::new(rt.alloc())?)?;
    declines(
        &rt,
        &mut planner,
        &both,
        &[
            (4, 125, 0),
            (4, 124, 24),
            (4, 25, 24),
            (4, 24, 23),
            (4, 0, 23),
        ],
    );
    let mut sheet = BLANK;
    let answer = planner.plan(4, &mut [None; 125], &mut sheet);
    assert!(rt; answer == Ok((6, 1)));
    let mut wanted = BLANK;
    wanted.rows[0][..5].copy_from_slice(&[0, 1, 4, 3, 3]);
    wanted.rows[1][..5].copy_from_slice(&[3, 2, 1, 0, 0]);
    assert_eq!(rt; sheet, wanted);
    Ok(())
}

#[test]
fn steps_and_cells(rt: HostRuntime) -> Result<(), Fail> {
    let both = [SEVEN, NINE];
    let mut planner = planner_of(5, &both, Following, Table::new(rt.alloc())?)?;
    let cases = [
        (0, 125, 21),
        (1, 10, 25),
        (16, 425, 0),
        (17, 500, 21),
        (usize::MAX, 500, 21),
        (1, 9, 23),
        (16, 424, 24),
        (16, 85, 24),
        (16, 84, 23),
        // 21 before 23
        (0, 0, 21),
        (17, 0, 21),
    ];
    declines(&rt, &mut planner, &both, &cases);
    // 21 before 22, and 22 before 23
    let mut empty = planner_of(5, &[], Following, Table::new(rt.alloc())?)?;
    declines(
        &rt,
        &mut empty,
        &[],
        &[
            (0, 0, 21),
            (17, 0, 21),
            (1, 0, 22),
            (16, 0, 22),
            (16, 500, 22),
        ],
    );
    Ok(())
}

// Of 24 and 25 that one is told which the course meets first, and 23 before both.
#[test]
fn beyond_reach_or_none(rt: HostRuntime) -> Result<(), Fail> {
    // each alone has a sheet, both have none
    let both = [SEVEN, NINE];
    let mut planner = planner_of(5, &both, ClearSection, Table::new(rt.alloc())?)?;
    declines(
        &rt,
        &mut planner,
        &both,
        &[(3, 100, 25), (3, 99, 24), (3, 20, 24), (3, 19, 23)],
    );
    // the last one alone has none, and is asked for before both others are joined
    let three = [SEVEN, NINE, STUCK];
    let mut planner = planner_of(6, &three, Following, Table::new(rt.alloc())?)?;
    declines(&rt, &mut planner, &three, &[(4, 30, 25), (4, 29, 23)]);
    // the walk uses no cell, but the plan asks for them
    let mut planner = planner_of(5, &both, Following, Walk::new(1)?)?;
    declines(
        &rt,
        &mut planner,
        &both,
        &[(4, 125, 24), (4, 25, 24), (4, 24, 23)],
    );
    let mut planner = planner_of(5, &both, Following, Walk::new(2)?)?;
    declines(&rt, &mut planner, &both, &[(4, 25, 0), (4, 24, 23)]);
    Ok(())
}

use crate::tests::case::Case;
use grouping::grouping::Grouping;
use roster::train::Train;
use rules::clear_section::ClearSection;
use rules::following::Following;
use rules::rule::Rule;
use scales::steps::Steps;
use search::answer::{Answer, Unplanned};
use search::search::Search;
use sheets::asked::Asked;
use sheets::sheet::Sheet;
use single_check::check::Check;
use single_check::reach::fewest_steps;
use std::alloc::Global;
use std::process::Abort;
use std::test::Fail;
use table::table::Table;
use track::refusal::Refusal;
use walk::walk::Walk;

mod case;

// Two trains that change places over a ring 1-2-3-4, to which 0-1 leads.
// The tests of the searches have this ring, these trains and this blank sheet too: two test crates share no crate of their own, and a test is no
// plainer where its expected values lie in another crate than what they follow from.
const CHANGE: Case = Case {
    sections: 5,
    links: &[(0, 1, 0), (1, 2, 2), (2, 3, 1), (1, 4, 1), (3, 4, 1)],
    trains: &[
        Train {
            number: 7,
            start: 0,
            goal: 3,
        },
        Train {
            number: 9,
            start: 3,
            goal: 0,
        },
    ],
    steps: 4,
};

// Two trains on links that do not meet; the goal of the second is on the first one's link.
const STUCK: Case = Case {
    sections: 4,
    links: &[(0, 1, 0), (2, 3, 0)],
    trains: &[
        Train {
            number: 1,
            start: 0,
            goal: 1,
        },
        Train {
            number: 2,
            start: 2,
            goal: 0,
        },
    ],
    steps: 3,
};

// A sheet that holds 31 wherever nothing was written.
const BLANK: Sheet = Sheet {
    rows: [[31; 17]; 8],
};

// A blank sheet but for the first rows.
fn written(rows: &[&[u8]]) -> Sheet {
    let mut sheet = BLANK;
    for (row, sections) in sheet.rows.iter_mut().zip(rows) {
        // copying the slice as a whole would be no plainer: it asks for a `requires` that each of the rows is short
        for (place, section) in row.iter_mut().zip(*sections) {
            *place = *section;
        }
    }
    sheet
}

// The answer of the grouping over the table, the cost and the number of groups, and the sheet.
fn grouped<R: Rule>(
    alloc: Global,
    rule: &R,
    cells: &mut [Option<u16>],
    case: Case,
) -> Result<(Answer<(u16, usize)>, Sheet), Fail> {
    let mut grouping = Grouping::over(Table::new(alloc)?);
    let told = case.told(|question| {
        let asked = Asked {
            rule,
            scale: &Steps,
            question,
        };
        let mut sheet = BLANK;
        let answer = grouping.plan(&asked, cells, &mut sheet);
        (answer, sheet)
    })?;
    Ok(told)
}

// The answer of a search, and the sheet.
fn searched<Q: Search<Steps>>(search: &mut Q, case: Case) -> Result<(Answer<u16>, Sheet), Refusal> {
    case.told(|question| {
        let asked = Asked {
            rule: &Following,
            scale: &Steps,
            question,
        };
        let mut sheet = BLANK;
        let answer = search.search(&asked, &mut [None; 125], &mut sheet);
        (answer, sheet)
    })
}

// How many steps the train of a row needs alone.
fn needed(case: Case, row: usize) -> Result<Option<usize>, Refusal> {
    case.told(|question| fewest_steps(question, row))
}

// The cells for one train suffice.
#[test]
fn two_that_never_meet_stay_two_groups(rt: HostRuntime) -> Result<(), Fail> {
    let apart = Case {
        trains: &[
            Train {
                number: 7,
                start: 0,
                goal: 2,
            },
            Train {
                number: 9,
                start: 3,
                goal: 4,
            },
        ],
        steps: 2,
        ..CHANGE
    };
    assert_eq!(rt;
        grouped(rt.alloc(), &Following, &mut [None; 15], apart)?,
        (Ok((3, 2)), written(&[&[0, 1, 2], &[3, 4, 4]]))
    );
    Ok(())
}

// All move at once, each into the section that another one leaves.
#[test]
fn three_that_rotate_stay_three_groups(rt: HostRuntime) -> Result<(), Fail> {
    let rotating = Case {
        sections: 3,
        links: &[(0, 1, 0), (1, 2, 0), (0, 2, 0)],
        trains: &[
            Train {
                number: 1,
                start: 0,
                goal: 1,
            },
            Train {
                number: 2,
                start: 1,
                goal: 2,
            },
            Train {
                number: 3,
                start: 2,
                goal: 0,
            },
        ],
        steps: 1,
    };
    assert_eq!(rt;
        grouped(rt.alloc(), &Following, &mut [None; 6], rotating)?,
        (Ok((3, 3)), written(&[&[0, 1], &[1, 2], &[2, 0]]))
    );
    Ok(())
}

// The first train stands at its goal, in the way of the second one.
#[test]
fn one_steps_aside_and_returns(rt: HostRuntime) -> Result<(), Fail> {
    let in_the_way = Case {
        sections: 4,
        links: &[(0, 1, 0), (1, 2, 0), (1, 3, 0)],
        trains: &[
            Train {
                number: 4,
                start: 1,
                goal: 1,
            },
            Train {
                number: 5,
                start: 0,
                goal: 2,
            },
        ],
        steps: 2,
    };
    assert_eq!(rt;
        grouped(rt.alloc(), &Following, &mut [None; 48], in_the_way)?,
        (Ok((4, 1)), written(&[&[1, 3, 1], &[0, 1, 2]]))
    );
    Ok(())
}

#[test]
fn two_change_places_as_one_group(rt: HostRuntime) -> Result<(), Fail> {
    assert_eq!(rt;
        grouped(rt.alloc(), &Following, &mut [None; 125], CHANGE)?,
        (Ok((6, 1)), written(&[&[0, 1, 4, 3, 3], &[3, 2, 1, 0, 0]]))
    );
    Ok(())
}

// With one cell too few, or with those for one train, nothing is written, though each train alone has a sheet.
#[test]
fn too_few_cells_for_both(rt: HostRuntime) -> Result<(), Fail> {
    let beyond = (Err(Unplanned::BeyondReach), BLANK);
    assert_eq!(rt;
        grouped(rt.alloc(), &Following, &mut [None; 124], CHANGE)?,
        beyond
    );
    assert_eq!(rt;
        grouped(rt.alloc(), &Following, &mut [None; 25], CHANGE)?,
        beyond
    );
    Ok(())
}

// In three steps each alone has a sheet, and both together have none.
#[test]
fn two_change_places_with_clear_sections(rt: HostRuntime) -> Result<(), Fail> {
    assert_eq!(rt;
        grouped(rt.alloc(), &ClearSection, &mut [None; 125], CHANGE)?,
        (Ok((7, 1)), written(&[&[0, 1, 4, 3, 3], &[3, 2, 2, 1, 0]]))
    );
    let sooner = Case { steps: 3, ..CHANGE };
    assert_eq!(rt;
        grouped(rt.alloc(), &ClearSection, &mut [None; 100], sooner)?,
        (Err(Unplanned::NoSheet), BLANK)
    );
    Ok(())
}

// The walk takes no group of two, and the check has an answer, since no way leads from 2 to 0.
#[test]
fn a_stuck_train_spares_the_search(rt: HostRuntime) -> Result<(), Fail> {
    let mut walk = Walk::new(1)?;
    assert_eq!(rt;
        searched(&mut walk, STUCK)?,
        (Err(Unplanned::BeyondReach), BLANK)
    );
    assert_eq!(rt;
        searched(&mut Check::over(walk), STUCK)?,
        (Err(Unplanned::NoSheet), BLANK)
    );
    Ok(())
}

// The row 5 is not on the roster.
#[test]
fn the_steps_of_one_alone(rt: HostRuntime) -> Result<(), Fail> {
    let sooner = Case { steps: 2, ..CHANGE };
    for (case, row, fewest) in [
        (STUCK, 0, Some(1)),
        (STUCK, 1, None),
        (STUCK, 5, None),
        (CHANGE, 0, Some(3)),
        (sooner, 0, None),
    ] {
        assert_eq!(rt; needed(case, row)?, fewest);
    }
    Ok(())
}

// The two trains that change places are to be planned as by the table alone.
fn changed<Q: Search<Steps>>(rt: &impl Abort, search: &mut Q) -> Result<(), Fail> {
    assert_eq!(rt;
        searched(search, CHANGE)?,
        (Ok(6), written(&[&[0, 1, 4, 3, 3], &[3, 2, 1, 0, 0]]))
    );
    Ok(())
}

#[test]
fn all_piles_of_layers_give_the_same(rt: HostRuntime) -> Result<(), Fail> {
    changed(&rt, &mut Table::new(rt.alloc())?)?;
    changed(&rt, &mut Check::over(Table::new(rt.alloc())?))?;
    changed(
        &rt,
        &mut Grouping::over(Check::over(Table::new(rt.alloc())?)),
    )?;
    changed(
        &rt,
        &mut Check::over(Grouping::over(Table::new(rt.alloc())?)),
    )?;
    changed(&rt, &mut Grouping::over(Walk::new(2)?))
}

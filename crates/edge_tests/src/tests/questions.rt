use crate::tests::act::number_of;
use roster::roster::Roster;
use roster::train::Train;
use sheets::pose::ask;
use std::test::Fail;
use track::drawing::Drawing;
use track::layout::Layout;
use track::refusal::Refusal;
use walk::walk::Walk;

fn layout_of(sections: u8) -> Result<Layout, Refusal> {
    let mut drawing = Drawing::new();
    drawing.add_sections(sections)?;
    Ok(drawing.finish())
}

// A roster of two trains: one starts in the last of 20 sections, the other ends in the last but one.
fn two_trains() -> Result<Roster, Refusal> {
    Roster::of(
        &layout_of(20)?,
        &[
            Train {
                number: 1,
                start: 19,
                goal: 0,
            },
            Train {
                number: 2,
                start: 1,
                goal: 18,
            },
        ],
    )
}

// The group of the rows that these say.
fn marks(rows: &[usize]) -> [bool; 8] {
    std::array::from_fn(|row| rows.contains(&row))
}

#[test]
fn questions(rt: HostRuntime) -> Result<(), Fail> {
    let roster = two_trains()?;
    let cases: [(u8, &[usize], usize, u8); 13] = [
        (20, &[0, 1], 1, 0),
        (20, &[1], 16, 0),
        (19, &[0], 1, 1),
        (20, &[2], 1, 17),
        (20, &[0, 7], 1, 17),
        (20, &[0], 0, 21),
        (20, &[0], 17, 21),
        (20, &[], 1, 22),
        (20, &[], 16, 22),
        // 1 before 17, 21 and 22
        (19, &[2], 0, 1),
        (19, &[], 1, 1),
        // 17 before 21, and 21 before 22
        (20, &[2], 17, 17),
        (20, &[], 0, 21),
    ];
    for (sections, rows, steps, number) in cases {
        let layout = layout_of(sections)?;
        let answer = ask(&layout, &roster, marks(rows), steps);
        assert_eq!(rt;
            number_of(answer.map(|_| ())),
            number,
            "{sections} {rows:?} {steps}"
        );
    }
    Ok(())
}

// A start or a goal that is just off the layout is enough, of a train of the group and of another.
#[test]
fn ends_off_the_layout(rt: HostRuntime) -> Result<(), Fail> {
    for (start, goal) in [(19, 0), (0, 19)] {
        let far = Train {
            number: 1,
            start,
            goal,
        };
        let near = Train {
            number: 2,
            start: 1,
            goal: 2,
        };
        let roster = Roster::of(&layout_of(20)?, &[far, near])?;
        for (sections, rows, number) in [(20, [0], 0), (20, [1], 0), (19, [0], 1), (19, [1], 1)] {
            let layout = layout_of(sections)?;
            let answer = ask(&layout, &roster, marks(&rows), 1);
            assert_eq!(rt;
                number_of(answer.map(|_| ())),
                number,
                "{start} {goal} {sections} {rows:?}"
            );
        }
    }
    Ok(())
}

#[test]
fn walks(rt: HostRuntime) -> Result<(), Fail> {
    for (most, number) in [(0, 26), (1, 0), (8, 0), (9, 26), (usize::MAX, 26)] {
        assert_eq!(rt; number_of(Walk::new(most).map(|_| ())), number, "{most}");
    }
    Ok(())
}

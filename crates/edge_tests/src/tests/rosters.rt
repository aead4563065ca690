use crate::tests::act::{Act, number_of, play};
use roster::roster::Roster;
use roster::train::Train;
use std::process::Abort;
use std::test::Fail;
use track::drawing::Drawing;
use track::layout::Layout;
use track::refusal::Refusal;

// A call to a roster on a layout, or several at once.
enum Call {
    // a number, a start and a goal
    Enter(u16, u8, u8),
    Withdraw(u16),
    Close(u8),
    OpenAgain(u8),
    // enters the trains 1, 2 .. each from the section of its number to that same section
    Trains(u8),
}

use Call::{Close, Enter, OpenAgain, Trains, Withdraw};

// A roster, and the layout of its calls.
#[derive(Drop)]
struct Desk {
    layout: Layout,
    roster: Roster,
}

impl Desk {
    // A desk with nothing entered, on so many sections.
    fn of(sections: u8) -> Result<Desk, Refusal> {
        let mut drawing = Drawing::new();
        drawing.add_sections(sections)?;
        Ok(Desk {
            layout: drawing.finish(),
            roster: Roster::new(),
        })
    }

    fn enter(&mut self, number: u16, start: u8, goal: u8) -> Result<(), Refusal> {
        self.roster.enter(
            &self.layout,
            Train {
                number,
                start,
                goal,
            },
        )
    }

    fn enter_first(&mut self, count: u8) -> Result<(), Refusal> {
        for section in 1..=count {
            self.enter(u16::from(section), section, section)?;
        }
        Ok(())
    }
}

impl Act<Desk> for Call {
    fn on(&self, desk: &mut Desk) -> u8 {
        number_of(match *self {
            Enter(number, start, goal) => desk.enter(number, start, goal),
            Withdraw(number) => desk.roster.withdraw(number),
            Close(section) => desk.roster.close(&desk.layout, section),
            OpenAgain(section) => desk.roster.open_again(&desk.layout, section),
            Trains(count) => desk.enter_first(count),
        })
    }
}

// Plays a script at two desks on so many sections, and sees that their rosters are the same.
fn kept(rt: &impl Abort, sections: u8, script: &[(Call, u8)]) -> Result<(), Fail> {
    let mut all = Desk::of(sections)?;
    let mut only = Desk::of(sections)?;
    play(rt, script, &mut all, &mut only);
    assert!(rt; all.roster.trains() == only.roster.trains());
    assert!(rt; all.roster.closed() == only.roster.closed());
    assert!(rt; (0..=255u8).all(|s| all.roster.is_closed(s) == only.roster.is_closed(s)));
    Ok(())
}

#[test]
fn entries(rt: HostRuntime) -> Result<(), Fail> {
    kept(
        &rt,
        20,
        &[
            (Enter(5, 19, 0), 0),
            (Close(10), 0),
            (Enter(6, 20, 1), 1),
            (Enter(6, 1, 20), 1),
            (Enter(0, 1, 2), 11),
            (Enter(10000, 1, 2), 11),
            (Enter(65535, 1, 2), 11),
            (Enter(9999, 1, 2), 0),
            (Enter(1, 2, 3), 0),
            (Enter(5, 4, 5), 12),
            (Enter(6, 10, 4), 13),
            (Enter(6, 4, 10), 13),
            (Enter(6, 19, 4), 14),
            (Enter(6, 4, 0), 15),
            // 1 before 11 to 15
            (Enter(0, 20, 1), 1),
            (Enter(5, 10, 20), 1),
            (Enter(6, 19, 20), 1),
            (Enter(6, 20, 0), 1),
            // 11 before 13 to 15
            (Enter(0, 10, 4), 11),
            (Enter(10000, 19, 4), 11),
            (Enter(0, 4, 0), 11),
            // 12 before 13 to 15
            (Enter(5, 10, 4), 12),
            (Enter(5, 19, 4), 12),
            (Enter(5, 4, 0), 12),
            // 13 before 14 and 15
            (Enter(6, 19, 10), 13),
            (Enter(6, 10, 0), 13),
            // 14 before 15
            (Enter(6, 19, 0), 14),
            (Enter(6, 0, 19), 0),
        ],
    )
}

#[test]
fn the_ninth_train(rt: HostRuntime) -> Result<(), Fail> {
    kept(
        &rt,
        20,
        &[
            (Close(10), 0),
            (Trains(7), 0),
            (Enter(8, 8, 8), 0),
            (Enter(9, 9, 9), 16),
            // 1 and 11 to 15 before 16
            (Enter(9, 9, 20), 1),
            (Enter(0, 9, 9), 11),
            (Enter(8, 9, 9), 12),
            (Enter(9, 9, 10), 13),
            (Enter(9, 8, 9), 14),
            (Enter(9, 9, 8), 15),
            (Withdraw(3), 0),
            (Enter(9, 3, 9), 0),
            (Enter(3, 11, 12), 16),
        ],
    )
}

#[test]
fn withdrawals(rt: HostRuntime) -> Result<(), Fail> {
    kept(
        &rt,
        20,
        &[
            (Withdraw(1), 17),
            (Trains(2), 0),
            // no train has such a number: 11 before 17
            (Withdraw(0), 11),
            (Withdraw(10000), 11),
            (Withdraw(9999), 17),
            (Enter(9999, 5, 5), 0),
            (Withdraw(9999), 0),
            (Withdraw(3), 17),
            (Withdraw(1), 0),
            (Withdraw(1), 17),
        ],
    )
}

#[test]
fn closing_and_opening(rt: HostRuntime) -> Result<(), Fail> {
    kept(
        &rt,
        20,
        &[
            (Enter(5, 19, 0), 0),
            (Close(20), 1),
            (Close(255), 1),
            (Close(18), 0),
            (Close(18), 18),
            (Close(19), 19),
            (Close(0), 19),
            // what is not on the layout is not closed either: 1 before 20
            (OpenAgain(20), 1),
            (OpenAgain(255), 1),
            (OpenAgain(19), 20),
            (OpenAgain(17), 20),
            (OpenAgain(18), 0),
            (OpenAgain(18), 20),
            (Close(18), 0),
        ],
    )?;
    kept(
        &rt,
        32,
        &[
            (Close(32), 1),
            (Close(31), 0),
            (OpenAgain(32), 1),
            (OpenAgain(31), 0),
        ],
    )
}

// Asked with a smaller layout than the roster's own, a section off it comes before what the roster says of it: 1 before 18 and 19.
#[test]
fn a_smaller_layout(rt: HostRuntime) -> Result<(), Fail> {
    let own = Desk::of(20)?.layout;
    let smaller = Desk::of(18)?.layout;
    let mut roster = Roster::of(
        &own,
        &[Train {
            number: 5,
            start: 19,
            goal: 0,
        }],
    )?;
    roster.close(&own, 18)?;
    assert_eq!(rt; number_of(roster.close(&smaller, 18)), 1);
    assert_eq!(rt; number_of(roster.close(&smaller, 19)), 1);
    assert_eq!(rt; number_of(roster.open_again(&smaller, 18)), 1);
    // nothing changed
    assert_eq!(rt; number_of(roster.close(&own, 18)), 18);
    assert_eq!(rt; number_of(roster.close(&own, 19)), 19);
    assert_eq!(rt; roster.closed(), (1, Some(18)));
    Ok(())
}

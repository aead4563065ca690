use crate::tests::act::number_of;
use machine::machine::Machine;
use rules::following::Following;
use scales::steps::Steps;
use sheets::sheet::Sheet;
use std::alloc::{AllocError, Global};
use std::process::Abort;
use std::test::Fail;
use table::table::Table;

// The number with which a machine declines the last of these lines, or 0.
fn last_of(alloc: Global, lines: &[&[u8]]) -> Result<u8, AllocError> {
    let mut machine = Machine::new(Following, Steps, Table::new(alloc)?);
    let mut sheet = Sheet::default();
    let mut number = 0;
    for line in lines {
        let said = machine.line(line, &mut [None; 4], &mut sheet);
        number = number_of(said.map(|_| ()));
    }
    Ok(number)
}

// Two sections and the link between them.
const DRAWN: [&[u8]; 2] = [b"01 02", b"02 00 01 00"];

// Before the finish, with what is drawn.
#[test]
fn before_the_finish(rt: HostRuntime) -> Result<(), Fail> {
    let cases: [(&[u8], u8); 10] = [
        (b"01 01", 0),
        (b"02 00 01 00", 5),
        (b"03 00 01 00 01", 8),
        (b"04", 0),
        (b"05 00 07 00 01", 29),
        (b"06 00 07", 29),
        (b"07 01", 29),
        // 27 and 28 before 29, and 29 before what the call itself would say
        (b"05 00 07 00", 28),
        (b"07 0g", 27),
        (b"07 00", 29),
    ];
    for (line, number) in cases {
        assert_eq!(rt;
            last_of(rt.alloc(), &[DRAWN[0], DRAWN[1], line])?,
            number,
            "{line:?}"
        );
    }
    Ok(())
}

// After the finish, with no train entered.
#[test]
fn after_the_finish(rt: HostRuntime) -> Result<(), Fail> {
    let cases: [(&[u8], u8); 10] = [
        (b"05 00 07 00 01", 0),
        (b"06 00 07", 17),
        (b"07 01", 22),
        (b"01 01", 29),
        (b"02 00 01 00", 29),
        (b"03 00 01 00 01", 29),
        (b"04", 29),
        // 27 and 28 before 29, and 29 before what the call itself would say
        (b"01", 28),
        (b"01 0g", 27),
        (b"02 00 00 00", 29),
    ];
    for (line, number) in cases {
        assert_eq!(rt;
            last_of(rt.alloc(), &[DRAWN[0], DRAWN[1], b"04", line])?,
            number,
            "{line:?}"
        );
    }
    Ok(())
}

// A frame on the wrong side leaves what is drawn, and what is entered, as it was.
#[test]
fn a_frame_on_the_wrong_side_changes_nothing(rt: HostRuntime) -> Result<(), Fail> {
    let early: [&[u8]; 3] = [b"05 00 07 00 01", b"06 00 07", b"07 01"];
    for line in early {
        // no train was entered before the finish
        let empty: [&[u8]; 5] = [DRAWN[0], DRAWN[1], line, b"04", b"07 01"];
        assert_eq!(rt; last_of(rt.alloc(), &empty)?, 22, "{line:?}");
        let entered: [&[u8]; 6] = [DRAWN[0], DRAWN[1], line, b"04", b"05 00 07 00 01", b"07 01"];
        assert_eq!(rt; last_of(rt.alloc(), &entered)?, 0, "{line:?}");
    }
    let late: [&[u8]; 4] = [b"01 01", b"02 00 01 00", b"03 00 01 00 01", b"04"];
    for line in late {
        // no section was added after it, and the train stays
        let drawn: [&[u8]; 6] = [
            DRAWN[0],
            DRAWN[1],
            b"04",
            b"05 00 07 00 01",
            line,
            b"05 00 09 00 02",
        ];
        assert_eq!(rt; last_of(rt.alloc(), &drawn)?, 1, "{line:?}");
        let stays: [&[u8]; 6] = [DRAWN[0], DRAWN[1], b"04", b"05 00 07 00 01", line, b"07 01"];
        assert_eq!(rt; last_of(rt.alloc(), &stays)?, 0, "{line:?}");
    }
    Ok(())
}

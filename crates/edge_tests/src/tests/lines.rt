use frames::plan::Plan;
use frames::print::{print_plan, print_refusal};
use frames::read::read;
use machine::intake::Intake;
use machine::said::Said;
use roster::roster::Roster;
use roster::train::Train;
use rules::following::Following;
use scales::pair::Pair;
use scales::printed::PrintedScale;
use scales::steps::Steps;
use scales::steps_then_points::StepsThenPoints;
use sheets::sheet::Sheet;
use std::process::Abort;
use std::test::Fail;
use table::table::Table;
use track::drawing::Drawing;
use track::refusal::Refusal;

// 22 pairs of digits and the spaces between them.
const PAIRS: [u8; 65] = *b"00 00 00 00 00 00 00 00 00 00 00 00 00 00 00 00 00 00 00 00 00 00";

// The number with which a line is declined, or 0, and the place that is told with it.
fn read_as(line: &[u8]) -> (u8, Option<u8>) {
    match read(line) {
        Ok(_) => (0, None),
        Err(Refusal::NotPairsOfDigits(place)) => (27, Some(place)),
        Err(refusal) => (refusal.number(), None),
    }
}

// Lines that are declined with 27, and the place that is told.
#[test]
fn digits(rt: HostRuntime) -> Result<(), Fail> {
    let cases: [(&[u8], u8); 20] = [
        (b"", 0),
        (b"0", 1),
        (b"01 ", 3),
        (b"01 0", 4),
        (b"01 05 ", 6),
        (b"/0", 0),
        (b":0", 0),
        (b"@0", 0),
        (b"G0", 0),
        (b"a0", 0),
        (b"0f", 1),
        (b"0 0", 1),
        (b" 00", 0),
        (b"0000", 2),
        (b"00\t00", 2),
        (b"00  00", 3),
        // 27 before 28
        (b"FF 0G", 4),
        (b"08 0", 4),
        (&PAIRS[..63], 63),
        (&PAIRS[..64], 64),
    ];
    for (line, place) in cases {
        assert_eq!(rt; read_as(line), (27, Some(place)), "{line:?}");
    }
    // a line of over 64 bytes is declined for that, whatever it holds
    assert_eq!(rt; read_as(&PAIRS), (27, Some(64)));
    assert_eq!(rt; read_as(&[b'G'; 65]), (27, Some(64)));
    assert_eq!(rt; read_as(&[b'G'; 64]), (27, Some(0)));
    Ok(())
}

// Each kind with one byte too few, with its bytes, and with one too many; and bytes that are no kind.
#[test]
fn kinds(rt: HostRuntime) -> Result<(), Fail> {
    let cases: [(&[u8], u8); 28] = [
        (b"00", 28),
        (b"00 00", 28),
        (b"08", 28),
        (b"08 00", 28),
        (b"90", 28),
        (b"A0", 28),
        (b"FF", 28),
        (&PAIRS[..62], 28),
        (b"01", 28),
        (b"01 FF", 0),
        (b"01 05 00", 28),
        (b"02 00 01", 28),
        (b"02 00 01 07", 0),
        (b"02 00 01 07 00", 28),
        (b"03 00 01 02", 28),
        (b"03 00 01 02 03", 0),
        (b"03 00 01 02 03 04", 28),
        (b"04", 0),
        (b"04 00", 28),
        (b"05 00 07 00", 28),
        (b"05 00 07 00 03", 0),
        (b"05 00 07 00 03 00", 28),
        (b"06 00", 28),
        (b"06 00 07", 0),
        (b"06 00 07 00", 28),
        (b"07", 28),
        (b"07 10", 0),
        (b"07 10 00", 28),
    ];
    for (line, number) in cases {
        assert_eq!(rt; read_as(line), (number, None), "{line:?}");
    }
    Ok(())
}

// The number with which printing was declined, or 0, and how many bytes were printed.
fn printed_as(answer: Result<usize, Refusal>) -> (u8, usize) {
    match answer {
        Ok(length) => (0, length),
        Err(refusal) => (refusal.number(), 0),
    }
}

// Whether the writing place holds the text, and dots after it.
fn holds(place: &[u8], text: &[u8]) -> bool {
    place.starts_with(text) && place.iter().skip(text.len()).all(|byte| *byte == b'.')
}

#[test]
fn room_for_a_refusal(rt: HostRuntime) -> Result<(), Fail> {
    for (room, wanted, text) in [
        (0, (30, 0), b"".as_slice()),
        (5, (30, 0), b""),
        (6, (0, 6), b"1F 1B\n"),
        (7, (0, 6), b"1F 1B\n"),
    ] {
        let mut place = [b'.'; 7];
        let answer = print_refusal(&Refusal::NotPairsOfDigits(64), &mut place[..room]);
        assert_eq!(rt; printed_as(answer), wanted, "{room} bytes");
        assert!(rt; holds(&place, text));
    }
    Ok(())
}

fn two_trains() -> Result<Roster, Refusal> {
    let mut drawing = Drawing::new();
    drawing.add_sections(4)?;
    Roster::of(
        &drawing.finish(),
        &[
            Train {
                number: 7,
                start: 0,
                goal: 3,
            },
            Train {
                number: 9999,
                start: 3,
                goal: 0,
            },
        ],
    )
}

// Prints a plan of 2 steps where there is room for one byte fewer than the text has, for just the text, and for one more.
fn plan_needs<S: PrintedScale>(
    rt: &impl Abort,
    scale: &S,
    cost: S::Cost,
    text: &[u8],
) -> Result<(), Fail> {
    let roster = two_trains()?;
    let mut sheet = Sheet::default();
    sheet.rows[0][..3].copy_from_slice(&[0, 1, 3]);
    sheet.rows[1][..3].copy_from_slice(&[3, 2, 0]);
    let plan = Plan::new(&roster, 2, &sheet, cost, 1);
    let length = text.len().min(99);
    for (room, wanted, text) in [
        (length.saturating_sub(1), (30, 0), b"".as_slice()),
        (length, (0, length), text),
        (length + 1, (0, length), text),
    ] {
        let mut place = [b'.'; 100];
        let answer = print_plan(scale, &plan, &mut place[..room]);
        assert_eq!(rt; printed_as(answer), wanted, "{room} bytes");
        assert!(rt; holds(&place, text));
    }
    Ok(())
}

#[test]
fn room_for_a_plan(rt: HostRuntime) -> Result<(), Fail> {
    plan_needs(
        &rt,
        &Steps,
        4,
        b"10 00 07 00 01 03\n10 27 0F 03 02 00\n11 00 04 01\n",
    )?;
    let cost = Pair {
        steps: 4,
        points: 258,
    };
    plan_needs(
        &rt,
        &StepsThenPoints,
        cost,
        b"10 00 07 00 01 03\n10 27 0F 03 02 00\n11 00 04 01 02 01\n",
    )
}

type Reply = Option<Result<Said<u16>, Refusal>>;

// The reply to the last of these lines, which no 0A ends. The others have to be done.
fn last_reply(
    rt: &impl Abort,
    intake: &mut Intake<Following, Steps, Table<u16>>,
    sheet: &mut Sheet,
    text: &[u8],
) -> Reply {
    for byte in text {
        if let Some(said) = intake.byte(*byte, &mut [None; 6], sheet) {
            assert!(rt; said.is_ok());
        }
    }
    intake.end(&mut [None; 6], sheet)
}

// Two sections with a link, and the train 7 from 0 to 1.
const ENTERED: &[u8] = b"01 02\n02 00 01 00\n04\n05 00 07 00 01\n";

// A place that is too short is left as it was, and the reply is printed into a longer one, whatever was done since.
#[test]
fn a_reply_is_printed_again(rt: HostRuntime) -> Result<(), Fail> {
    let mut intake = Intake::new(Following, Steps, Table::new(rt.alloc())?);
    let mut sheet = Sheet::default();
    assert!(rt; last_reply(&rt, &mut intake, &mut sheet, ENTERED).is_none());
    let said = last_reply(&rt, &mut intake, &mut sheet, b"07 02").expect(&rt, "a reply");
    let mut place = [b'.'; 40];
    assert_eq!(rt; printed_as(intake.print(&said, &mut place[..29])), (30, 0));
    assert!(rt; holds(&place, b""));
    // another train stands on the roster and the sheet when it is printed
    let _ = last_reply(
        &rt,
        &mut intake,
        &mut sheet,
        b"06 00 07\n05 00 09 01 00\n07 02",
    );
    assert_eq!(rt; printed_as(intake.print(&said, &mut place)), (0, 30));
    assert!(rt; holds(&place, b"10 00 07 00 01 01\n11 00 01 01\n"));
    Ok(())
}

// After a withdrawal the plan is of the trains that are left.
#[test]
fn a_plan_after_a_withdrawal(rt: HostRuntime) -> Result<(), Fail> {
    let mut intake = Intake::new(Following, Steps, Table::new(rt.alloc())?);
    let mut sheet = Sheet::default();
    assert!(rt; last_reply(&rt, &mut intake, &mut sheet, ENTERED).is_none());
    let text = b"05 00 09 01 00\n06 00 07\n07 01";
    let said = last_reply(&rt, &mut intake, &mut sheet, text).expect(&rt, "a reply");
    let mut place = [b'.'; 40];
    assert_eq!(rt; printed_as(intake.print(&said, &mut place)), (0, 27));
    assert!(rt; holds(&place, b"10 00 09 01 00\n11 00 01 01\n"));
    Ok(())
}

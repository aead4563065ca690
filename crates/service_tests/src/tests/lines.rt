use crate::tests::fakes::{Events, Full, Giver, Happened, Taker, add};
use service::serve::serve;
use std::alloc::{AllocError, Global};
use std::cell::RefCell;
use std::io;
use std::io::Read;
use std::test::Fail;
use table::table::Table;

// Lines with what each prints: two sections and a link, a finish, a train and a plan;
// then lines that are declined, the last of them with no 0A.
const LINES: [(&[u8], &[u8]); 10] = [
    (b"01 02\n", b""),
    (b"02 00 01 00\n", b""),
    (b"04\n", b""),
    (b"05 00 07 00 01\n", b""),
    (b"07 01\n", b"10 00 07 00 01\n11 00 01 01\n"),
    // no frame, a kind that is unknown, a frame on the wrong side of the finish
    (b"G\n", b"1F 1B\n"),
    (b"08\n", b"1F 1C\n"),
    (b"01 01\n", b"1F 1D\n"),
    // an empty line
    (b"\n", b"1F 1B\n"),
    // no steps
    (b"07 00", b"1F 15\n"),
];

pub(crate) fn input(alloc: Global) -> Result<Vec<u8>, AllocError> {
    let mut input = Vec::new(alloc);
    for (line, _) in LINES {
        input.extend_from_slice(line)?;
    }
    Ok(input)
}

// What happens where each line is read up to its end, and then its answer is written and flushed.
pub(crate) fn expected(alloc: Global) -> io::Result<Vec<Happened>> {
    let events: Events = RefCell::new(Vec::new(alloc));
    for (line, answer) in LINES {
        for byte in line {
            add(&events, Happened::Read(*byte))?;
        }
        for byte in answer {
            add(&events, Happened::Wrote(*byte))?;
        }
        if !answer.is_empty() {
            add(&events, Happened::Flushed)?;
        }
    }
    Ok(events.into_inner())
}

// A reader that gives one byte at a time gets each answer before the next line is read.
#[test]
fn each_line_is_answered_before_the_next_is_read(rt: HostRuntime) -> Result<(), Fail> {
    let alloc = rt.alloc();
    let input = input(alloc)?;
    let wanted = expected(alloc)?;
    for most in [1, 1000] {
        let events: Events = RefCell::new(Vec::new(alloc));
        let mut reader = Giver {
            events: &events,
            bytes: &input,
            most: 1,
            fails: false,
            interrupted: false,
        };
        let mut writer = Taker {
            events: &events,
            most,
            room: 1000,
            full: Full::Fails,
            interrupted: false,
        };
        serve(&mut reader, &mut writer, Table::new(alloc)?)?;
        assert_eq!(rt; events.into_inner(), wanted, "{most} bytes a write");
    }
    Ok(())
}

// However the input is cut in two, the same is written.
#[test]
fn any_cut_of_the_input_gives_the_same_answers(rt: HostRuntime) -> Result<(), Fail> {
    let alloc = rt.alloc();
    let input = input(alloc)?;
    let mut answers = Vec::new(alloc);
    for (_, answer) in LINES {
        answers.extend_from_slice(answer)?;
    }
    for cut in 0..=input.len() {
        let (front, behind) = input.split_at(cut);
        let mut written = Vec::new(alloc);
        serve(&mut front.chain(behind), &mut written, Table::new(alloc)?)?;
        assert_eq!(rt; written, answers, "cut at {cut}");
    }
    // no line starts at the end of the input
    let mut written = Vec::new(alloc);
    serve(&mut b"".as_slice(), &mut written, Table::new(alloc)?)?;
    assert_eq!(rt; written.len(), 0);
    Ok(())
}

use crate::tests::fakes::{Events, Full, Giver, Happened, Taker};
use crate::tests::lines::{expected, input};
use service::serve::serve;
use std::alloc::Global;
use std::cell::RefCell;
use std::io;
use std::io::ErrorKind;
use std::test::Fail;
use table::table::Table;

// How many bytes the lines before the last print: the plan's 27, and 6 for each of the four that are declined.
const BEFORE_THE_LAST: usize = 27 + 4 * 6;

// What happens before the byte behind the first so many is read.
fn before_read(events: &[Happened], count: usize) -> &[Happened] {
    let mut left = count;
    for (place, event) in events.iter().enumerate() {
        if let Happened::Read(_) = event {
            if left == 0 {
                return &events[..place];
            }
            left -= 1;
        }
    }
    events
}

// What happens before the byte behind the first so many is written.
fn before_written(events: &[Happened], count: usize) -> &[Happened] {
    let mut left = count;
    for (place, event) in events.iter().enumerate() {
        if let Happened::Wrote(_) = event {
            if left == 0 {
                return &events[..place];
            }
            left -= 1;
        }
    }
    events
}

// What happens before the first answer is flushed.
fn before_flushed(events: &[Happened]) -> &[Happened] {
    for (place, event) in events.iter().enumerate() {
        if let Happened::Flushed = event {
            return &events[..place];
        }
    }
    events
}

// Serves a reader that fails behind these bytes, and a writer with so much room.
fn outcome(
    alloc: Global,
    bytes: &[u8],
    room: usize,
    full: Full,
) -> io::Result<(Option<ErrorKind>, Vec<Happened>)> {
    let events: Events = RefCell::new(Vec::new(alloc));
    let mut reader = Giver {
        events: &events,
        bytes,
        most: 1,
        fails: true,
        interrupted: false,
    };
    let mut writer = Taker {
        events: &events,
        most: 1,
        room,
        full,
        interrupted: false,
    };
    let failed = match serve(&mut reader, &mut writer, Table::new(alloc)?) {
        Ok(()) => None,
        Err(error) => Some(error.kind()),
    };
    Ok((failed, events.into_inner()))
}

// Where the reader fails, the lines that were ended before are answered, and no other: not even one that has begun.
#[test]
fn a_failed_read_leaves_the_lines_before_it_answered(rt: HostRuntime) -> Result<(), Fail> {
    let alloc = rt.alloc();
    let input = input(alloc)?;
    let wanted = expected(alloc)?;
    for count in 0..input.len() {
        let (failed, events) = outcome(alloc, &input[..count], 1000, Full::Fails)?;
        assert!(rt; failed == Some(ErrorKind::TimedOut), "{count} bytes read");
        assert_eq!(rt;
            events.as_slice(),
            before_read(&wanted, count),
            "{count} bytes read"
        );
    }
    // the last line is not ended: its answer is not written
    let (failed, events) = outcome(alloc, &input, 1000, Full::Fails)?;
    assert!(rt; failed == Some(ErrorKind::TimedOut));
    assert_eq!(rt; events.as_slice(), before_written(&wanted, BEFORE_THE_LAST));
    Ok(())
}

// Where the writer fails, the bytes up to there are written, and nothing is read or written afterwards.
#[test]
fn a_failed_write_is_the_last(rt: HostRuntime) -> Result<(), Fail> {
    let alloc = rt.alloc();
    let input = input(alloc)?;
    let wanted = expected(alloc)?;
    for count in 0..BEFORE_THE_LAST {
        let (failed, events) = outcome(alloc, &input, count, Full::Fails)?;
        assert!(rt;
            failed == Some(ErrorKind::BrokenPipe),
            "{count} bytes written"
        );
        assert_eq!(rt;
            events.as_slice(),
            before_written(&wanted, count),
            "{count} bytes written"
        );
        // a writer that takes no byte has failed
        let (failed, events) = outcome(alloc, &input, count, Full::TakesNone)?;
        assert!(rt; failed == Some(ErrorKind::WriteZero), "{count} bytes taken");
        assert_eq!(rt;
            events.as_slice(),
            before_written(&wanted, count),
            "{count} bytes taken"
        );
    }
    // the plan's 27 bytes are written and cannot be flushed
    let (failed, events) = outcome(alloc, &input, 27, Full::FailsToFlush)?;
    assert!(rt; failed == Some(ErrorKind::BrokenPipe));
    assert_eq!(rt; events.as_slice(), before_flushed(&wanted));
    Ok(())
}

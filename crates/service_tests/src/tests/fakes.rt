use std::cell::RefCell;
use std::io;
use std::io::{Error, ErrorKind, Read, Write};

// What happened between the service and its two ends.
#[derive(Clone, Copy, PartialEq, Eq, Debug, Drop)]
pub(crate) enum Happened {
    Read(u8),
    Wrote(u8),
    Flushed,
}

pub(crate) type Events = RefCell<Vec<Happened>>;

pub(crate) fn add(events: &Events, event: Happened) -> io::Result<()> {
    match events.try_borrow_mut() {
        Ok(mut list) => match list.push(event) {
            Ok(()) => Ok(()),
            Err(_) => Err(Error::from(ErrorKind::OutOfMemory)),
        },
        Err(_) => Err(Error::from(ErrorKind::ResourceBusy)),
    }
}

// Gives its bytes, at most so many a read, and before each of them says once that it was interrupted.
// After all of them it ends, or fails.
#[derive(Drop)]
pub(crate) struct Giver<'a> {
    pub(crate) events: &'a Events,
    pub(crate) bytes: &'a [u8],
    pub(crate) most: usize,
    pub(crate) fails: bool,
    pub(crate) interrupted: bool,
}

impl Read for Giver<'_> {
    fn read(&mut self, buf: &mut [u8]) -> io::Result<usize> {
        self.interrupted = !self.interrupted;
        if self.interrupted {
            return Err(Error::from(ErrorKind::Interrupted));
        }
        if self.bytes.is_empty() {
            return if self.fails {
                Err(Error::from(ErrorKind::TimedOut))
            } else {
                Ok(0)
            };
        }
        let count = self.most.min(self.bytes.len()).min(buf.len());
        let (given, left) = self.bytes.split_at(count);
        for byte in given {
            add(self.events, Happened::Read(*byte))?;
        }
        buf[..count].copy_from_slice(given);
        self.bytes = left;
        Ok(count)
    }
}

// What a writer does when its room is used up.
#[derive(Clone, Copy, PartialEq, Eq, Drop)]
pub(crate) enum Full {
    Fails,
    TakesNone,
    FailsToFlush,
}

// Takes at most so many bytes a write, and before each write says once that it was interrupted.
// When its room is used up it does as `full` says.
#[derive(Drop)]
pub(crate) struct Taker<'a> {
    pub(crate) events: &'a Events,
    pub(crate) most: usize,
    pub(crate) room: usize,
    pub(crate) full: Full,
    pub(crate) interrupted: bool,
}

impl Write for Taker<'_> {
    fn write(&mut self, buf: &[u8]) -> io::Result<usize> {
        self.interrupted = !self.interrupted;
        if self.interrupted {
            return Err(Error::from(ErrorKind::Interrupted));
        }
        if self.room == 0 && self.full == Full::Fails {
            return Err(Error::from(ErrorKind::BrokenPipe));
        }
        let count = self.most.min(buf.len()).min(self.room);
        for byte in &buf[..count] {
            add(self.events, Happened::Wrote(*byte))?;
        }
        self.room -= count;
        Ok(count)
    }

    fn flush(&mut self) -> io::Result<()> {
        if self.room == 0 && self.full == Full::FailsToFlush {
            return Err(Error::from(ErrorKind::BrokenPipe));
        }
        add(self.events, Happened::Flushed)
    }
}

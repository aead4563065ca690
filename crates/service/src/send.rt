ghost use Rattle.service.specs.Serving.{Sent};

use std::io;
use std::io::{Error, ErrorKind, Write};

// Writes all of the bytes, and flushes. Where that fails, the first so many of them are written.
// A write that was interrupted is tried again, and one that takes no byte has failed.
pub(crate) fn send<O: Write>(writer: &mut O, bytes: &[u8]) -> io::Result<()>
    ensures all_of_the_bytes_or_a_beginning { Sent
        (O.contents writer.old) (O.contents writer.new) bytes.now result }
{
    let mut sent = 0;
    for _ in 0..u64::MAX {
        if sent == bytes.len() {
            return writer.flush();
        }
        match writer.write(&bytes[sent..]) {
            Ok(0) => return Err(Error::from(ErrorKind::WriteZero)),
            Ok(count) => sent += count,
            Err(error) if error.kind() == ErrorKind::Interrupted => {}
            Err(error) => return Err(error),
        }
    }
    Err(Error::from(ErrorKind::TimedOut))
}

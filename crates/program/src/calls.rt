// Reading and writing that an interrupt does not end: the call is tried again. The loop stands twice, as in std: one that takes the call as
// a closure was tried, and the proof could not follow what the closure borrows past its end.
ghost use Rattle.std.specs.Prelude.{◌≤◌, ◌<◌, length, IfOk, IfErr, OnOk};
ghost use Rattle.std.specs.Io.{ReadsAtMost, WritesAtMost};
ghost use Rattle.std.specs.Io.KnownBytes.{Appends, ReadConsumes, WriteAppends};

use std::io::{self, ErrorKind};

// More calls than a run has time for.
const CALLS: u64 = u64::MAX;

// Reads what is there: nothing at the end of the input.
pub fn read_some<R: io::Read>(from: &mut R, bytes: &mut [u8]) -> io::Result<usize>
    ensures bound { ReadsAtMost result bytes.new }
    ensures bytes { ReadConsumes (R.remaining from.old) (R.remaining from.new) result bytes.new }
{
    for _ in 0..CALLS {
        match from.read(bytes) {
            Ok(count) => return Ok(count),
            Err(error) if error.kind() == ErrorKind::Interrupted => {}
            Err(error) => return Err(error),
        }
    }
    Err(io::Error::from(ErrorKind::Interrupted))
}

// Reads until bytes are full or the input ends, and answers how many came.
pub fn read_full<R: io::Read>(from: &mut R, bytes: &mut [u8]) -> io::Result<usize>
    ensures { ReadsAtMost result bytes.new }
{
    let mut count = 0;
    // A while: count rises by what a read moved, not by one.
    while count < bytes.len() {
        match read_some(from, &mut bytes[count..])? {
            0 => break,
            more => count += more,
        }
    }
    Ok(count)
}

// A write that failed, and how many bytes were written before it.
#[derive(Drop)]
pub struct Unwritten {
    pub count: usize,
    pub error: io::Error,
}

// Writes bytes: all, or fewer where a write fails.
pub fn write_full<W: io::Write>(to: &mut W, bytes: &[u8]) -> Result<(), Unwritten>
    ensures count { IfErr result (λ unwritten. unwritten.count ≤ length bytes.now) }
    ensures bytes { OnOk result (Appends (W.contents to.old) (W.contents to.new) bytes.now) }
{
    let mut count = 0;
    // A while: count rises by what a write moved, not by one.
    while count < bytes.len() {
        match write_some(to, &bytes[count..]) {
            Ok(more) => count += more,
            Err(error) => return Err(Unwritten { count, error }),
        }
    }
    Ok(())
}

// One write, of some bytes.
fn write_some<W: io::Write>(to: &mut W, bytes: &[u8]) -> io::Result<usize>
    ensures bound { WritesAtMost result bytes.now }
    ensures some { IfOk result (λ count. 0 < count) }
    ensures bytes { WriteAppends (W.contents to.old) (W.contents to.new) result bytes.now }
{
    for _ in 0..CALLS {
        match to.write(bytes) {
            Ok(0) => return Err(io::Error::from(ErrorKind::WriteZero)),
            Ok(count) => return Ok(count),
            Err(error) if error.kind() == ErrorKind::Interrupted => {}
            Err(error) => return Err(error),
        }
    }
    Err(io::Error::from(ErrorKind::Interrupted))
}

// What is said on standard error, a line each, where not all could be read and printed. What can't be said there is not said. A line is put
// together before it is said, so that it is one write, and runs that share a log don't tear it; the words of an error are writes of their own.
ghost use Rattle.std.specs.Prelude.{◌<◌, ◌^◌, length};

use crate::calls;
use arrayvec::ArrayString;
use basin::reach;
use common::bytes::word;
use common::refusal::Refusal;
use std::fmt::{self, InlineText, Write};
use std::io;
use subbasin::record;

// Room for any line, and for what comes before an error's words.
type Line = ArrayString<160>;

// WORDS of both is the length of arrays; the file's counts are u64.
const SUB_WORDS: u64 = record::WORDS as u64;

const REACH_WORDS: u64 = reach::WORDS as u64;

// A load of bytes that was refused with number and place. Any number is taken: a `Refusal` would ask more of a caller.
pub fn refused_load<W: io::Write>(to: &mut W, bytes: &[u8], number: u64, place: u64) {
    let (n, m) = (word(bytes, 0), word(bytes, 1));
    let mut line = Line::new();
    let _ = if number == Refusal::FewBytes.number() {
        writeln!(line, "basin.bin: has fewer than 8 bytes")
    } else if number == Refusal::Length.number() {
        let wanted = 4 * (2 + SUB_WORDS * n + REACH_WORDS * m);
        writeln!(
            line,
            "basin.bin: does not have the {wanted} bytes that N = {n} and M = {m} ask for"
        )
    } else {
        let word = Word::at(place, n);
        writeln!(
            line,
            "basin.bin: word {place} ({word}) is outside its range"
        )
    };
    let _ = calls::write_full(to, line.as_bytes());
}

// What a word of the file is: `M`, or `LM of sub-basin 1`.
#[derive(Clone, Copy)]
enum Word {
    N,
    M,
    OfSubBasin(u64),
    OfReach(u64),
}

impl Word {
    // The word at this place of a file of n sub-basins.
    fn at(place: u64, n: u64) -> Word
        requires { n < 2 ^ 32 }
    {
        let subs = SUB_WORDS * n;
        match place {
            0 => Word::N,
            1 => Word::M,
            _ if place - 2 < subs => Word::OfSubBasin(place - 2),
            _ => Word::OfReach(place - 2 - subs),
        }
    }
}

impl fmt::Display for Word {
    fn fmt<W: fmt::Write>(&self, f: &mut fmt::Formatter<W>) -> fmt::Result {
        match *self {
            Word::N => write!(f, "N"),
            Word::M => write!(f, "M"),
            Word::OfSubBasin(k) => write_of(f, &record::NAMES, "sub-basin", k),
            Word::OfReach(k) => write_of(f, &reach::NAMES, "reach", k),
        }
    }
}

// Word k of records of this kind, the words of each of which have these names.
fn write_of<W: fmt::Write>(
    f: &mut fmt::Formatter<W>,
    names: &[&str],
    kind: &str,
    k: u64,
) -> fmt::Result
    requires { 1 < length names.now }
{
    let count = names.len() as u64;
    let name = names[(k % count) as usize];
    let number = k / count + 1;
    write!(f, "{name} of {kind} {number}")
}

// A part step at the end: count of the size bytes of step `step`.
pub fn short<W: io::Write>(to: &mut W, count: u64, size: u64, step: u64) {
    let mut line = Line::new();
    let _ = writeln!(
        line,
        "forcing.bin: ends inside step {step}, after {count} of its {size} bytes"
    );
    let _ = calls::write_full(to, line.as_bytes());
}

// A read of the forcing that failed when so many steps had been taken.
pub fn unread<W: io::Write>(to: &mut W, steps: u64, error: io::Error) {
    let mut what = Line::new();
    let _ = match steps {
        0 => write!(what, "forcing.bin: could not be read"),
        _ => write!(what, "forcing.bin: could not be read after step {steps}"),
    };
    failed(to, what.as_bytes(), error);
}

// A write that failed: not all of this line and of those after it are printed.
pub fn unwritten<W: io::Write>(to: &mut W, line: u64, error: io::Error) {
    let mut what = Line::new();
    let _ = write!(
        what,
        "standard output: could not be written from line {line} on"
    );
    failed(to, what.as_bytes(), error);
}

// What failed, and why, in the system's words, up to a zero byte: std puts the number of the system's error after them. Bytes, as text would
// ask more of a caller.
pub fn failed<W: io::Write>(to: &mut W, what: &[u8], error: io::Error) {
    let text = InlineText::<128>::of(&error);
    let text = text.as_str();
    let why = text.split_once(" (os error ").map_or(text, |parts| parts.0);
    let why = why.split_once("\0").map_or(why, |parts| parts.0);
    for part in [what, b": ", why.as_bytes(), b"\n"] {
        let _ = calls::write_full(to, part);
    }
}

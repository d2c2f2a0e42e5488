// The program's work: document 01, "What the program prints". It reads a basin file and a forcing file and prints their lines, and what
// keeps it from reading and printing all is said on standard error.
#![tactic(auto)]

mod calls;
mod print;
mod run;
pub mod say;
mod text;

ghost use Rattle.std.specs.Prelude.{◌≡◌, List, ℕ};
ghost use Rattle.std.specs.Io.{ReadsAtMost};
ghost use Rattle.std.specs.Io.KnownBytes.{Appends};
ghost use Rattle.common.specs.Refusals.{number_of};
ghost use Rattle.basin.specs.File.{as_loaded, load_call};
ghost use Rattle.program.specs.Print.{load_text, printed};
ghost use Rattle.program.specs.Ended.{ended_in, status_of};
ghost use Rattle.program.specs.Workers.{Prints, StartOf};

use basin::file;
use common::refusal::Refused;
use print::Streams;
use std::fs;
use std::io::{self, ErrorKind};
use std::rt::Files;
use text::Output;

// How a run ends, by its exit status.
#[derive(Clone, Copy, Debug, PartialEq, Eq)]
pub enum Ended {
    // All was read and printed.
    All = 0,
    // The load was refused, the forcing ends inside a step, or a file could not be opened.
    NotAll = 1,
    // A read or a write failed on the way.
    Failed = 3,
}

impl From<Ended> for u8 {
    ghost from_gives = { λ ended status. status ≡ status_of ended };

    fn from(ended: Ended) -> u8 {
        ended as u8
    }
}

// Runs on the files of these paths: prints their lines, says what keeps it from reading and printing all, and answers how that ends.
pub fn account<F: Files, W: io::Write, E: io::Write>(
    files: &F,
    to: &mut W,
    said: &mut E,
    basin: &[u8],
    forcing: &[u8],
) -> Ended
    ensures { Prints result (W.contents to.old) (W.contents to.new) }
{
    match print_files(files, to, said, basin, forcing) {
        Ok(()) => Ended::All,
        Err(ended) => ended,
    }
}

// Does the work of `account`; an Err is how it ends too soon.
fn print_files<F: Files, W: io::Write, E: io::Write>(
    files: &F,
    to: &mut W,
    said: &mut E,
    basin: &[u8],
    forcing: &[u8],
) -> Result<(), Ended>
    ensures { Prints (ended_in result) (W.contents to.old) (W.contents to.new) }
{
    // 4,096 bytes, which no legal basin file has: the start of a longer one is refused as the whole is. A buffer and a size, as in `run`.
    let mut bytes = [0u8; 4096];
    let start = read_start(files, said, basin, &mut bytes);
    let size = start.unwrap_or(0);
    let mut streams = Streams {
        to,
        said,
        out: Output::new(),
    };
    let mut basin = match file::load(&bytes[..size]) {
        Ok(basin) => basin,
        Err(refused) => return refuse(&mut streams, start, &bytes[..size], refused),
    };
    let mut file = open(files, forcing).map_err(|error| {
        say::failed(streams.said, b"forcing.bin: could not be opened", error);
        Ended::NotAll
    })?;
    run::run(&mut file, &mut streams, &mut basin)
}

// Opens a file to be read. std's paths are text: one that is none can't be opened. Bytes are asked for, as text would be more.
fn open<F: Files>(files: &F, path: &[u8]) -> io::Result<F::File> {
    match str::from_utf8(path) {
        Ok(text) => fs::open(files, text),
        Err(_) => Err(io::Error::from(ErrorKind::InvalidInput)),
    }
}

// Puts the start of a file into bytes, and answers how many there are. Where it can't be opened or read, that is said, and how the run
// ends is answered.
fn read_start<F: Files, E: io::Write>(
    files: &F,
    said: &mut E,
    path: &[u8],
    bytes: &mut [u8],
) -> Result<usize, Ended>
    ensures { ReadsAtMost result bytes.new }
{
    let mut file = open(files, path).map_err(|error| {
        say::failed(said, b"basin.bin: could not be opened", error);
        Ended::NotAll
    })?;
    calls::read_full(&mut file, bytes).map_err(|error| {
        say::failed(said, b"basin.bin: could not be read", error);
        Ended::Failed
    })
}

// Prints a refused load, and says why where its reading has not said so. What is printed is all that document 01 has for every file that
// starts with these bytes.
fn refuse<W: io::Write, E: io::Write>(
    streams: &mut Streams<'_, W, E>,
    start: Result<usize, Ended>,
    bytes: &[u8],
    refused: Refused,
) -> Result<(), Ended>
    requires { as_loaded (Err refused) ≡ load_call bytes.now }
    ensures same_reference { streams.new.to.ghost_name ≡ streams.old.to.ghost_name }
    ensures text { streams.new.out ≡ load_text (number_of refused.why) refused.place }
    ensures printed { (ended_in result ≡ Ended.Failed → ⊥)
        → Appends (W.contents streams.old.to.now) (W.contents streams.new.to.now) (load_text (number_of refused.why) refused.place) }
    ensures whole { (file forcing : List ℕ) → StartOf file bytes.now → streams.new.out ≡ printed file forcing }
{
    streams.out.set_load(refused);
    let printed = streams.print(1);
    if start.is_ok() {
        say::refused_load(streams.said, bytes, refused.why.number(), refused.place);
    }
    printed?;
    start?;
    Err(Ended::NotAll)
}

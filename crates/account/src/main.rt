// The program: it reads basin.bin and forcing.bin in the current folder, and its exit status says how that ended.
#![tactic(auto)]

use program::{Ended, say};
use std::fs::{self, OpenFile, OpenOptions};
use std::io;
use std::process::ExitCode;
use std::rt::Files;

fn main(rt: HostRuntime) -> ExitCode {
    let mut said = rt.stderr();
    let mut ended = program::account(
        &rt,
        &mut rt.stdout(),
        &mut said,
        b"basin.bin",
        b"forcing.bin",
    );
    // Some systems tell of a failed write only when the file is stored.
    if let Err(error) = store(&rt, "/dev/stdout") {
        say::failed(&mut said, b"standard output: could not be stored", error);
        ended = Ended::Failed;
    }
    ExitCode::from(u8::from(ended))
}

// Stores what was written to a file; to a pipe, a terminal or a device there is nothing to store.
fn store(files: &impl Files, path: &str) -> io::Result<()> {
    let is_file = fs::metadata(files, path).is_ok_and(|found| found.is_file());
    if !is_file {
        return Ok(());
    }
    match OpenOptions::new().append(true).open(files, path) {
        Ok(file) => file.sync_all(),
        Err(_) => Ok(()),
    }
}

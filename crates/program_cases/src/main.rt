// The program's work on damaged and missing files, with its status, and all that it says of a refused load and of a part step. The
// files come from the second model, `model program-cases`, and what must be printed too, `model expect program_cases`.
#![tactic(auto)]

use common::refusal::Refusal;
use program::say;
use std::fmt::InlineText;
use std::io;

const CASES: u8 = 25;

fn main(rt: HostRuntime) -> io::Result<()> {
    cases(rt)?;
    let mut to = rt.stdout();
    refused_loads(&mut to, 1, 0);
    refused_loads(&mut to, 2, 3);
    refused_loads(&mut to, 32, 31);
    say::short(&mut to, 1, 16, 1);
    say::short(&mut to, 79, 80, 1097);
    say::short(&mut to, 511, 512, u64::MAX);
    Ok(())
}

fn cases(rt: HostRuntime) -> io::Result<()> {
    for number in 1..=CASES {
        run(rt, number)?;
    }
    Ok(())
}

// The case in the folder of this number.
fn run(rt: HostRuntime, number: u8) -> io::Result<()> {
    println!(rt; "case {number}")?;
    let basin = InlineText::<14>::of(format_args!("{number:02}/basin.bin"));
    let forcing = InlineText::<14>::of(format_args!("{number:02}/forcing.bin"));
    let ended = program::account(
        &rt,
        &mut rt.stdout(),
        &mut rt.stderr(),
        basin.as_str().as_bytes(),
        forcing.as_str().as_bytes(),
    );
    println!(rt; "status {}", u8::from(ended))
}

// What is said of a file with n sub-basins and m reaches, of every word of it last.
fn refused_loads<W: io::Write>(to: &mut W, n: u8, m: u8) {
    let bytes = [n, 0, 0, 0, m, 0, 0, 0];
    let mut say = |why: Refusal, place| say::refused_load(to, &bytes, why.number(), place);
    say(Refusal::FewBytes, 0);
    say(Refusal::Counts, 0);
    say(Refusal::Counts, 1);
    say(Refusal::Length, 0);
    for place in 2..2 + 26 * n as u64 + 3 * m as u64 {
        say(Refusal::Word, place);
    }
}

// A host of the library, as README.md has it: it loads a basin file of two sub-basins and takes a step a day.
#![tactic(auto)]

use basin::file;
use basin::state::Basin;
use basin::step::Report;
use common::refusal::Refused;
use forcing::list::{Line, Reading};
use std::fs;
use std::io::{self, Read};

fn main(rt: HostRuntime) -> io::Result<()> {
    let mut bytes = [0u8; 4096]; // more than any legal file has; no heap is needed
    let size = fs::metadata(&rt, "basin.bin")?.len().min(4096) as usize;
    fs::open(&rt, "basin.bin")?.read_exact(&mut bytes[..size])?;
    let mut basin = match file::load(&bytes[..size]) {
        Ok(basin) => basin,
        Err(_) => return Ok(()), // refused: the error says why and where
    };
    let monday = day(
        &mut basin,
        -1.5,
        Reading::Measured(42.5),
        Reading::Measured(120.5),
    );
    print(&rt, monday)?;
    let tuesday = day(
        &mut basin,
        6.25,
        Reading::Estimated(140.0),
        Reading::Measured(1.5),
    );
    print(&rt, tuesday)?;
    let wednesday = day(&mut basin, 4.0, Reading::Missing, Reading::Measured(0.0));
    print(&rt, wednesday)
}

// One step: it takes 32 lines and looks at the first two. The second sub-basin lies lower, and is 3 °C warmer. A step that is refused leaves
// the basin as it was.
fn day(
    basin: &mut Basin,
    degrees: f32,
    first: Reading,
    second: Reading,
) -> Result<Report, Refused> {
    let mut lines = [Line::default(); 32];
    lines[0] = Line {
        rain: first,
        pan: 4.0,
        temperature: degrees,
    };
    lines[1] = Line {
        rain: second,
        pan: 3.5,
        temperature: degrees + 3.0,
    };
    basin.step(lines, 2)
}

// Outlet volume and content, both 0 of a refused step, whose error says why and where.
fn print(rt: &impl Print, day: Result<Report, Refused>) -> io::Result<()> {
    let report = day.unwrap_or_default();
    println!(rt; "{} {}", report.outlet, report.content)
}

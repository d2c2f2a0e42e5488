// The week call: case A of document 01, lists of every length, refusals in every step and line, weeks of snow, basins that 9 does not allow,
// and lists that mix weeks with single steps; every list again by single steps. What it must print comes from the second model:
// `model expect week_cases`.
#![tactic(auto)]

mod brimming;
mod case_a;
mod lengths;
mod list;
mod mixed;
mod outside;
mod refusals;
mod singly;
mod snow;
mod told;

use std::io;

fn main(rt: HostRuntime) -> io::Result<()> {
    case_a::row(&rt)?;
    lengths::rows(&rt)?;
    refusals::rows(&rt)?;
    snow::rows(&rt)?;
    outside::rows(&rt)?;
    brimming::rows(&rt)?;
    mixed::rows(&rt)
}

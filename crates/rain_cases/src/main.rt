// The rain call: a sub-basin where more rain may yield less, drawn basins, refusals, the sub-basin's own call, and snow. Of an answer is
// printed what every right choice of a rain has in common. What it must print comes from the second model: `model expect rain_cases`.
#![tactic(auto)]

mod asked;
mod dip;
mod drawn;
mod outside;
mod records;
mod refusals;
mod snow;

use std::io;

fn main(rt: HostRuntime) -> io::Result<()> {
    dip::rows(&rt)?;
    drawn::rows(&rt)?;
    refusals::rows(&rt)?;
    refusals::pans(&rt)?;
    outside::rows(&rt)?;
    records::rows(&rt)?;
    snow::rows(&rt)
}

// The window of late: made for every kind of n, a few arrivals in full, long series, every short list, every small record, and windows
// that are damaged in every place. What it must print comes from the second model: `model expect window_cases`.
#![tactic(auto)]

mod course;
mod damaged;
mod lists;
mod made;
mod number;
mod records;
mod series;
mod short;
mod starts;
mod tally;
mod told;

use std::io;

fn main(rt: HostRuntime) -> io::Result<()> {
    made::rows(&rt)?;
    short::rows(&rt)?;
    series::rows(&rt)?;
    lists::rows(&rt)?;
    records::rows(&rt)?;
    damaged::rows(&rt)
}

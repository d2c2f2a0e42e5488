// The calls of `forcing`: depths and temperatures of every class of patterns, on both sides of every half of a µm and of a thousandth of a
// degree, at the limits and of every exponent, and the reading of lines with rain, pan and temperature of every class, and with a fault at
// every place. What it must print comes from the second model: `model expect forcing_cases`.
#![tactic(auto)]

mod calls;
mod depths;
mod numbers;
mod readings;
mod reads;
mod temperatures;

use calls::Said;
use forcing::depth::Gauge;
use std::io;

fn main(rt: HostRuntime) -> io::Result<()> {
    depths::print(&rt, Said::Depth(Gauge::Rain), 1000000)?;
    depths::print(&rt, Said::Depth(Gauge::Pan), 100000)?;
    temperatures::print(&rt)?;
    reads::patterns(&rt)?;
    reads::temperatures(&rt)?;
    reads::combinations(&rt)?;
    reads::faults(&rt)?;
    reads::pairs(&rt)?;
    reads::counts(&rt)?;
    reads::any(&rt)?;
    reads::bytes(&rt)
}

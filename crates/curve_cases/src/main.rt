// The calls of `curve`: on document 01's examples, on every share, at both ends of every limit and one beyond, on every w of some curves, on
// stores whose outflow is a half above a whole number and on such as get nothing, in long random series, and with tables of roots that
// mislead. What it must print comes from the second model: `model expect curve_cases`.
#![tactic(auto)]

mod calls;
mod every;
mod examples;
mod lent;
mod limits;
mod ordinates;
mod random;
mod stores;

use std::io;

fn main(rt: HostRuntime) -> io::Result<()> {
    examples::print(&rt)?;
    every::shares(&rt)?;
    every::exponents(&rt)?;
    limits::print(&rt)?;
    limits::far(&rt)?;
    ordinates::print(&rt)?;
    stores::print(&rt)?;
    random::print(&rt)?;
    lent::series(&rt)
}

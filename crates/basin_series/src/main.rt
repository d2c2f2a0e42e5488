// The step call: case A of document 01, every number of a basin at both ends of its limits and beyond, snow, and long series on basins of
// every shape, with refused steps among them. What it must print comes from the second model: `model expect basin_series`.
#![tactic(auto)]

mod faults;
mod limits;
mod plan;
mod series;
mod snow;

use basin_testing::calls;
use basin_testing::weather::CASE_A;
use std::io;
use testing::chance::Chance;
use testing::choices::Choice;
use testing::drafts::Plan;

fn main(rt: HostRuntime) -> io::Result<()> {
    case_a(&rt)?;
    limits_after_steps(&rt)?;
    snow::rows(&rt)?;
    plan::rows(&rt)
}

fn case_a(rt: &impl Print) -> io::Result<()> {
    let mut b = calls::case_a();
    for (i, line) in CASE_A.into_iter().enumerate() {
        let given = b.step([line; 32], 1);
        series::print(rt, i as u64 + 1, &given)?;
    }
    Ok(())
}

// Three ordinary sub-basins and two reaches after 24 steps.
fn limits_after_steps(rt: &impl Print) -> io::Result<()> {
    let mut chance = Chance::new();
    let mut b = calls::started(Plan::chain(Choice::Ordinary, 3, 2), &mut chance);
    series::run(rt, &mut b, &mut chance, 24)?;
    limits::print(rt, &b, &mut chance)
}

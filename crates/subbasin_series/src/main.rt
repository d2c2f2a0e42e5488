// The sub-basin call: at both ends of every limit and one beyond, and in long random series, each call on the record that the one
// before handed back, with refused calls among them. What it must print comes from the second model: `model expect subbasin_series`.
#![tactic(auto)]

mod basins;
mod calls;
mod choices;
mod limits;
mod plan;
mod series;
mod snow;

use calls::Call;
use common::weather::Weather;
use std::io;
use subbasin::record::SubBasin;
use testing::choices::Choice;
use testing::climate::Climate;

fn main(rt: HostRuntime) -> io::Result<()> {
    two_steps(&rt, basins::case_a(), 135000, 10000)?;
    two_steps(&rt, basins::at_c_share(), 0, 100000)?;
    two_steps(&rt, basins::brimming(0), 1000000, 100000)?;
    two_steps(&rt, basins::brimming(65535), 1000000, 100000)?;
    cuts(&rt, basins::case_a())?;
    cuts(&rt, basins::middling())?;
    cuts(&rt, basins::brimming(0))?;
    // The same where EP takes 10,000 of the rain.
    for rain in [14999, 15000, 15001, 20000, 20001] {
        step(&rt, basins::case_a(), rain, 10000)?;
    }
    limits::places(&rt, basins::case_a())?;
    limits::places(&rt, basins::middling())?;
    limits::temperatures(&rt, basins::case_a())?;
    limits::temperatures(&rt, basins::middling())?;
    snow::rows(&rt)?;
    plan::weathers(&rt, "case_a", basins::case_a())?;
    plan::weathers(&rt, "middling", basins::middling())?;
    plan::extremes(&rt)?;
    plan::ends(&rt)?;
    plan::drawn(&rt, "corner", Choice::End, Climate::Spells)?;
    plan::drawn(&rt, "any", Choice::Any, Climate::Mixed)
}

// A step with rain alone and a step with pan alone, in full, at the snow threshold, where all rain is P. Where a brimming record recedes slowest, the first leaves the channel
// store above its limit, and the second is refused.
fn two_steps(rt: &impl Print, start: SubBasin, rain: u64, pan: u64) -> io::Result<()> {
    let first = step(rt, start, rain, 0)?;
    step(rt, first, 0, pan)?;
    Ok(())
}

// Net rain at the ends of slices and beside them, and of 200 slices.
fn cuts(rt: &impl Print, start: SubBasin) -> io::Result<()> {
    for rain in [4999, 5000, 5001, 9999, 10000, 10001, 1000000] {
        two_steps(rt, start, rain, 10000)?;
    }
    Ok(())
}

fn step(rt: &impl Print, record: SubBasin, rain: u64, pan: u64) -> io::Result<SubBasin> {
    let mut call = Call {
        record,
        weather: Weather {
            rain,
            pan,
            temperature: record.fixed.threshold.min(10000) as i64,
        },
    };
    let _ = call.print(rt)?;
    Ok(call.record)
}

// The lines of one step: document 01, "The forcing list" and the gauge readers of "Who sent it".
ghost use Rattle.std.specs.Prelude.{◌≡◌, IfOk, IfErr};
ghost use Rattle.std.specs.Int.{from_bool};
ghost use Rattle.common.specs.Refusals.{number_of};
ghost use Rattle.forcing.specs.Depth.{as_depth};
ghost use Rattle.forcing.specs.List.{weather_of, line_number, estimated_of, as_forcing, reading, JudgedList};
ghost use Rattle.forcing.specs.Workers.{rain_call};

use crate::depth::{self, Gauge};
use crate::temperature;
use common::refusal::{Refusal, Refused};
use common::weather::Weather;

// A rain reading, in millimetres.
#[derive(Clone, Copy, Default)]
pub enum Reading {
    Measured(f32),
    Estimated(f32),
    #[default]
    Missing,
}

impl Reading {
    fn is_estimated(self) -> bool
        ensures { from_bool result ≡ estimated_of self }
    {
        matches!(self, Reading::Estimated(_))
    }
}

// One sub-basin's line: rain and pan in millimetres, and the air temperature in degrees Celsius. By default, where there is no line, rain is
// missing and the others are 0.
#[derive(Clone, Copy, Default)]
pub struct Line {
    pub rain: Reading,
    pub pan: f32,
    pub temperature: f32,
}

// What the lines of one step came to: how many are estimated, and the weather by sub-basin.
#[derive(Clone, Copy, Default)]
pub struct Readings {
    pub estimated: u64,
    pub weather: [Weather; 32],
}

// Judges the lines of one step, `count` of the fixed array that document 01 has go into it, for a basin of n sub-basins.
pub fn read(lines: [Line; 32], count: u64, n: u64) -> Result<Readings, Refused>
    ensures answered { as_forcing result ≡ reading lines count n }
    ensures judged { JudgedList lines count n (as_forcing result) }
{
    if count != n {
        return Err(Refusal::LineCount.into());
    }
    let mut weather = [Weather::default(); 32];
    let mut estimated = 0;
    // By number: n may be above 32. Past the 32nd line there is none, and its rain is missing.
    for at in 0..n {
        let line = lines.get(at as usize).copied().unwrap_or_default();
        let place = at + 1;
        weather[at as usize] = judge_line(line).map_err(|why| Refused { why, place })?;
        estimated += u64::from(line.rain.is_estimated());
    }
    Ok(Readings { estimated, weather })
}

// Rain before pan, and pan before the temperature.
#[tactic(auto, using(crate::proofs::list::LineLaws::first_refuses))]
fn judge_line(line: Line) -> Result<Weather, Refusal>
    ensures good { IfOk result (λ w. (line_number line ≡ 0) × (w ≡ weather_of line)) }
    ensures bad { IfErr result (λ why. number_of why ≡ line_number line) }
{
    let rain = judge_rain(line.rain)?;
    let pan = depth::depth_of(line.pan, Gauge::Pan)?;
    let temperature = temperature::temperature_of(line.temperature)?;
    Ok(Weather {
        rain,
        pan,
        temperature,
    })
}

fn judge_rain(reading: Reading) -> Result<u64, Refusal>
    ensures { as_depth result ≡ rain_call reading }
{
    match reading {
        Reading::Measured(x) | Reading::Estimated(x) => depth::depth_of(x, Gauge::Rain),
        Reading::Missing => Err(Refusal::RainMissing),
    }
}

// Lines, drawn, and bad ones.
use forcing::list::{Line, Reading};
use std::array;
use std::num::{nearest_i64_to_f32, nearest_u64_to_f32};
use testing::chance::Chance;
use testing::climate::Climate;

// In the weather of step i's spell, by three draws.
pub fn line(i: u64, draws: [u64; 3]) -> Line {
    line_in(Climate::Spells, i, draws)
}

// In the weather of step i in a climate. One reading of eight is estimated.
pub fn line_in(climate: Climate, i: u64, [x, y, z]: [u64; 3]) -> Line {
    let weather = climate.weather(i, [x, y, z]);
    let depth = millimetres(weather.rain);
    let rain = match y % 8 {
        0 => Reading::Estimated(depth),
        _ => Reading::Measured(depth),
    };
    Line {
        rain,
        pan: millimetres(weather.pan),
        temperature: nearest_i64_to_f32(weather.temperature) / 1000.0,
    }
}

// The number nearest to a depth in µm, over 1,000.
fn millimetres(depth: u64) -> f32 {
    nearest_u64_to_f32(depth) / 1000.0
}

// Lines of step i.
pub fn drawn<const N: usize>(i: u64, chance: &mut Chance) -> [Line; N] {
    drawn_in(Climate::Spells, i, chance)
}

pub fn drawn_in<const N: usize>(climate: Climate, i: u64, chance: &mut Chance) -> [Line; N] {
    array::from_fn(|_| line_in(climate, i, chance.draws()))
}

// The three steps of case A, one line each.
pub const CASE_A: [Line; 3] = [
    Line {
        rain: Reading::Measured(135.0),
        pan: 0.0,
        temperature: 0.0,
    },
    Line {
        rain: Reading::Missing,
        pan: 0.0,
        temperature: 0.0,
    },
    Line {
        rain: Reading::Measured(0.0),
        pan: 10.0,
        temperature: 0.0,
    },
];

// Another rain, pan or temperature than may be.
#[derive(Clone, Copy)]
pub enum Fault {
    Rain(Reading),
    Pan(f32),
    Temperature(f32),
}

impl Fault {
    pub const ALL: [Fault; 13] = [
        Fault::Rain(Reading::Missing),
        Fault::Rain(Reading::Measured(f32::NAN)),
        Fault::Rain(Reading::Estimated(f32::INFINITY)),
        Fault::Rain(Reading::Measured(-0.5)),
        Fault::Rain(Reading::Estimated(1000.0625)),
        Fault::Pan(f32::NAN),
        Fault::Pan(f32::NEG_INFINITY),
        Fault::Pan(-0.25),
        Fault::Pan(100.0625),
        Fault::Temperature(f32::NAN),
        Fault::Temperature(f32::INFINITY),
        // One bit beyond either limit.
        Fault::Temperature(60.000004),
        Fault::Temperature(-80.00001),
    ];

    // The line with the fault.
    pub fn put(self, line: Line) -> Line {
        match self {
            Fault::Rain(rain) => Line { rain, ..line },
            Fault::Pan(pan) => Line { pan, ..line },
            Fault::Temperature(temperature) => Line {
                temperature,
                ..line
            },
        }
    }
}

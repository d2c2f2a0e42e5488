// Forcing lines: good ones, all different, and bad ones.
use crate::numbers;
use forcing::file;
use forcing::list::{Line, Reading};
use std::array;
use std::num::f32_from_bits_with_nan;
use testing::chance::{self, Chance};

// The numbers after 1,000, 100, 60 and, downwards, 0 and -80.
pub const ABOVE_RAIN: f32 = 1000.00006;

pub const ABOVE_PAN: f32 = 100.000008;

pub const TOO_HOT: f32 = 60.000004;

pub const BELOW_ZERO: f32 = -1.4e-45;

pub const TOO_COLD: f32 = -80.00001;

// Rain, pan and temperature: bad rain, bad pan, both, a bad temperature by itself and beside the others, and the last three good.
const CHOSEN: [(Reading, f32, f32); 36] = [
    (Reading::Missing, 1.0, 1.0),
    (Reading::Measured(f32::NAN), 1.0, 1.0),
    (Reading::Estimated(f32::NAN), 1.0, 1.0),
    (Reading::Measured(f32::INFINITY), 1.0, 1.0),
    (Reading::Estimated(f32::NEG_INFINITY), 1.0, 1.0),
    (Reading::Measured(BELOW_ZERO), 1.0, 1.0),
    (Reading::Estimated(f32::MIN), 1.0, 1.0),
    (Reading::Measured(ABOVE_RAIN), 1.0, 1.0),
    (Reading::Estimated(f32::MAX), 1.0, 1.0),
    (Reading::Measured(1.0), f32::NAN, 1.0),
    (Reading::Estimated(1.0), f32::INFINITY, 1.0),
    (Reading::Measured(1.0), f32::NEG_INFINITY, 1.0),
    (Reading::Estimated(1.0), BELOW_ZERO, 1.0),
    (Reading::Measured(1.0), f32::MIN, 1.0),
    (Reading::Estimated(1.0), ABOVE_PAN, 1.0),
    (Reading::Measured(1.0), f32::MAX, 1.0),
    (Reading::Missing, f32::NAN, 1.0),
    (Reading::Missing, ABOVE_PAN, 1.0),
    (Reading::Measured(ABOVE_RAIN), f32::NAN, 1.0),
    (Reading::Estimated(f32::NAN), ABOVE_PAN, 1.0),
    (Reading::Measured(f32::NEG_INFINITY), f32::NEG_INFINITY, 1.0),
    (Reading::Estimated(ABOVE_RAIN), ABOVE_PAN, 1.0),
    (Reading::Measured(1.0), 1.0, f32::NAN),
    (Reading::Estimated(1.0), 1.0, f32::INFINITY),
    (Reading::Measured(1.0), 1.0, f32::NEG_INFINITY),
    (Reading::Estimated(1.0), 1.0, TOO_COLD),
    (Reading::Measured(1.0), 1.0, TOO_HOT),
    (Reading::Estimated(1.0), 1.0, f32::MIN),
    (Reading::Measured(1.0), 1.0, f32::MAX),
    (Reading::Missing, 1.0, f32::NAN),
    (Reading::Measured(ABOVE_RAIN), 1.0, TOO_COLD),
    (Reading::Estimated(1.0), BELOW_ZERO, TOO_HOT),
    (Reading::Measured(f32::NAN), ABOVE_PAN, f32::NEG_INFINITY),
    (Reading::Estimated(-0.0), -0.0, -0.0),
    (Reading::Measured(1000.0), 100.0, 60.0),
    (Reading::Estimated(1.0), 1.0, -80.0),
];

pub fn chosen() -> [Line; 36] {
    CHOSEN.map(|(rain, pan, temperature)| Line {
        rain,
        pan,
        temperature,
    })
}

// From 0.0625 on, rain rising and pan falling, the temperature away from zero to either side; every third is estimated.
pub fn good() -> [Line; 32] {
    array::from_fn(|k| {
        let k = k as u32;
        let rain = f32_from_bits_with_nan(0x3d80_0000 + k * 3400000);
        let pan = f32_from_bits_with_nan(0x3d80_0000 + (31 - k) * 2700000);
        let temperature = f32_from_bits_with_nan(0x3d80_0000 + k * 2600000);
        Line {
            rain: if k % 3 == 2 {
                Reading::Estimated(rain)
            } else {
                Reading::Measured(rain)
            },
            pan,
            temperature: if k % 2 == 0 {
                temperature
            } else {
                -temperature
            },
        }
    })
}

// One of 64 is chosen, the others are drawn.
pub fn any(chance: &mut Chance) -> [Line; 32] {
    let chosen = chosen();
    array::from_fn(|_| {
        let draws = chance.draws::<4>();
        if draws[0] % 64 == 0 {
            chance::one_of(chosen, draws[1])
        } else {
            let [kind, rain, pan, temperature] = drawn(draws);
            file::line_of(kind, rain, pan, temperature)
        }
    })
}

// Kind, rain, pan and temperature, from 2^-15 to their limits.
fn drawn([x, y, z, t]: [u64; 4]) -> [u32; 4] {
    [
        1 + (x / 64 % 2) as u32,
        (0x3800_0000 + y % 209321985) as u32,
        (0x3800_0000 + z % 180879361) as u32,
        numbers::degrees([x / 128, t]),
    ]
}

// The bytes of 32 lines; of one line in 64 a word is any.
pub fn bytes(chance: &mut Chance) -> [u8; 512] {
    let mut bytes = [0; 512];
    for i in 0..32 {
        let words = words(chance.draws());
        for k in 0..4 {
            let at = 16 * i + 4 * k;
            bytes[at..at + 4].copy_from_slice(&words[k].to_le_bytes());
        }
    }
    bytes
}

fn words([x, y, z, t]: [u64; 4]) -> [u32; 4] {
    let mut words = drawn([x, y, z, t]);
    if x % 64 == 0 {
        words[(x / 64 % 4) as usize] = numbers::any([y, z]);
    }
    words
}

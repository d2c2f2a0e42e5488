// The depth call on chosen numbers, printed, and on long series of them.
use crate::calls::{self, Said, Series};
use crate::numbers;
use std::io;
use testing::patterns::PATTERNS;

// Zeros, the least normals, infinities, a NaN, both limits, powers of 2, and the examples of document 01 and of a half.
const CENTRES: [u32; 20] = [
    0x0000_0000,
    0x8000_0000,
    0x0080_0000,
    0x8080_0000,
    0x7f80_0000,
    0xff80_0000,
    0x7fc0_0000,
    0x447a_0000,
    0xc47a_0000,
    0x42c8_0000,
    0xc2c8_0000,
    0x3980_0000,
    0x3a00_0000,
    0x3d80_0000,
    0x3e40_0000,
    0x3f80_0000,
    0x4300_0000,
    0x4480_0000,
    0x4b00_0000,
    0x5f00_0000,
];

// A half of a µm stands above so many.
const HALVES: [u64; 20] = [
    0, 1, 2, 62, 187, 499, 500, 999, 9999, 65535, 99998, 99999, 100000, 134999, 262143, 524287,
    999937, 999998, 999999, 1000000,
];

// Every series of a gauge, with the halves up to its limit.
pub fn print(rt: &impl Print, said: Said, limit: u64) -> io::Result<()> {
    calls::patterns(rt, said, &PATTERNS)?;
    calls::centres(rt, said, &CENTRES)?;
    halves(rt, said)?;
    every_half(rt, said, limit)?;
    calls::every_exponent(rt, said)?;
    calls::drawn(rt, said, "any", |draws| numbers::any(draws))?;
    calls::drawn(rt, said, "near", |draws| numbers::near(draws))
}

fn halves(rt: &impl Print, said: Said) -> io::Result<()> {
    let mut series = Series::new(said);
    for k in HALVES {
        for pattern in numbers::around_half(k) {
            series.print(rt, pattern)?;
        }
    }
    series.end(rt, "halves")
}

fn every_half(rt: &impl Print, said: Said, limit: u64) -> io::Result<()> {
    let mut series = Series::new(said);
    for k in 0..=limit {
        for pattern in numbers::around_half(k) {
            series.add(pattern);
        }
    }
    series.end(rt, "every half")
}

// The temperature call on chosen numbers, printed, and on long series of them, on both sides of zero.
use crate::calls::{self, Said, Series};
use crate::numbers::{self, COLDEST, HOTTEST, SIGNS};
use std::io;
use testing::patterns::{PATTERNS, TEMPERATURES};

// Zeros, the least normals, infinities, a NaN, both limits with either sign, and powers of 2.
const CENTRES: [u32; 20] = [
    0x0000_0000,
    0x8000_0000,
    0x0080_0000,
    0x8080_0000,
    0x7f80_0000,
    0xff80_0000,
    0xffc0_0000,
    0x4270_0000,
    0xc270_0000,
    0x42a0_0000,
    0xc2a0_0000,
    0x3a00_0000,
    0xba00_0000,
    0x3f80_0000,
    0xbf80_0000,
    0x4280_0000,
    0xc280_0000,
    0xc300_0000,
    0xcb00_0000,
    0xdf00_0000,
];

// A half of a thousandth stands beyond so many; 62, 187, 312, 9,937, 59,937 and 79,937 are those of odd sixteenths of a degree, which are exact.
const HALVES: [u64; 14] = [
    0, 1, 62, 187, 312, 999, 9937, 31999, 59937, 59999, 60000, 79937, 79999, 80000,
];

pub fn print(rt: &impl Print) -> io::Result<()> {
    patterns(rt)?;
    calls::centres(rt, Said::Temperature, &CENTRES)?;
    halves(rt)?;
    every_half(rt)?;
    every_sixteenth(rt)?;
    beyond(rt)?;
    calls::every_exponent(rt, Said::Temperature)?;
    calls::drawn(rt, Said::Temperature, "any", |draws| numbers::any(draws))?;
    calls::drawn(rt, Said::Temperature, "near", |draws| {
        numbers::near_degrees(draws)
    })?;
    calls::drawn(rt, Said::Temperature, "inside", |draws| {
        numbers::degrees(draws)
    })
}

fn patterns(rt: &impl Print) -> io::Result<()> {
    let mut series = Series::new(Said::Temperature);
    for patterns in [PATTERNS, TEMPERATURES] {
        for pattern in patterns {
            series.print(rt, pattern)?;
        }
    }
    series.end(rt, "patterns")
}

fn halves(rt: &impl Print) -> io::Result<()> {
    let mut series = Series::new(Said::Temperature);
    for k in HALVES {
        for sign in SIGNS {
            for pattern in numbers::around_half(k) {
                series.print(rt, sign | pattern)?;
            }
        }
    }
    series.end(rt, "halves")
}

fn every_half(rt: &impl Print) -> io::Result<()> {
    let mut series = Series::new(Said::Temperature);
    for k in 0..=80000 {
        for sign in SIGNS {
            for pattern in numbers::around_half(k) {
                series.add(sign | pattern);
            }
        }
    }
    series.end(rt, "every half")
}

// Every other one is a half, exactly. To 81 degrees on both sides.
fn every_sixteenth(rt: &impl Print) -> io::Result<()> {
    let mut series = Series::new(Said::Temperature);
    for k in 0..=1296 {
        for sign in SIGNS {
            for pattern in numbers::around(sign | numbers::sixteenths(k)) {
                series.add(pattern);
            }
        }
    }
    series.end(rt, "every sixteenth")
}

// Beyond the limits, as far as what would round to one, and farther.
fn beyond(rt: &impl Print) -> io::Result<()> {
    let mut series = Series::new(Said::Temperature);
    for limit in [HOTTEST, COLDEST] {
        for more in 1..=140 {
            series.add(limit + more);
        }
    }
    series.end(rt, "beyond")
}

// The calls on one number, by its pattern, and series of them: printed, or folded into a checksum.
use crate::numbers;
use forcing::depth::{self, Gauge};
use forcing::temperature;
use std::num::f32_from_bits_with_nan;
use std::{fmt, io};
use testing::chance::Chance;
use testing::checksum::Checksum;
use testing::lines::Row;
use testing::refusals;

// What a number is said to be.
#[derive(Clone, Copy)]
pub enum Said {
    Depth(Gauge),
    Temperature,
}

impl Said {
    fn told(self, pattern: u32) -> Told {
        let x = f32_from_bits_with_nan(pattern);
        let given = match self {
            Said::Depth(gauge) => depth::depth_of(x, gauge).map(|depth| depth.cast_signed()),
            Said::Temperature => temperature::temperature_of(x),
        };
        Told {
            refusal: refusals::told(&given),
            value: given.unwrap_or(0),
        }
    }
}

impl fmt::Display for Said {
    fn fmt<W: fmt::Write>(&self, f: &mut fmt::Formatter<W>) -> fmt::Result {
        match self {
            Said::Depth(gauge) => write!(f, "{gauge}"),
            Said::Temperature => f.write_str("temperature"),
        }
    }
}

// Number and place, and the value, which is 0 where there is none.
#[derive(Clone, Copy)]
struct Told {
    refusal: [u64; 2],
    value: i64,
}

// Numbers by their patterns, one after the other.
#[derive(Clone, Copy)]
pub struct Series {
    said: Said,
    sum: Checksum,
}

impl Series {
    pub fn new(said: Said) -> Series {
        Series {
            said,
            sum: Checksum::default(),
        }
    }

    // A value below zero counts in the checksum as 2^64 more.
    pub fn add(&mut self, pattern: u32) {
        let _ = self.take(pattern);
    }

    // The same, in a line.
    pub fn print(&mut self, rt: &impl Print, pattern: u32) -> io::Result<()> {
        let told = self.take(pattern);
        println!(rt;
            "{} {pattern}{} {}",
            self.said,
            Row(&told.refusal),
            told.value
        )
    }

    fn take(&mut self, pattern: u32) -> Told {
        let told = self.said.told(pattern);
        self.sum.add_row(&told.refusal);
        self.sum.add(told.value.cast_unsigned());
        told
    }

    pub fn end(&self, rt: &impl Print, part: &str) -> io::Result<()> {
        println!(rt; "{} {part} {}", self.said, self.sum)
    }
}

pub fn patterns(rt: &impl Print, said: Said, patterns: &[u32]) -> io::Result<()> {
    let mut series = Series::new(said);
    for pattern in patterns {
        series.print(rt, *pattern)?;
    }
    series.end(rt, "patterns")
}

// Each with the patterns beside it.
pub fn centres(rt: &impl Print, said: Said, centres: &[u32]) -> io::Result<()> {
    let mut series = Series::new(said);
    for centre in centres {
        for pattern in numbers::around(*centre) {
            series.print(rt, pattern)?;
        }
    }
    series.end(rt, "centres")
}

const FRACTIONS: [u32; 4] = [0, 1, 0x40_0000, 0x7f_ffff];

// With four fractions and both signs.
pub fn every_exponent(rt: &impl Print, said: Said) -> io::Result<()> {
    let mut series = Series::new(said);
    for fraction in FRACTIONS {
        for exponent in 0..256 {
            for sign in numbers::SIGNS {
                series.add(sign | exponent * 0x80_0000 | fraction);
            }
        }
    }
    series.end(rt, "every exponent")
}

pub fn drawn<F: Fn([u64; 2]) -> u32>(
    rt: &impl Print,
    said: Said,
    part: &str,
    pattern: F,
) -> io::Result<()>
    requires { F.IsAlwaysCallable pattern }
{
    let mut chance = Chance::new();
    let mut series = Series::new(said);
    for i in 0..100000 {
        let pattern = pattern(chance.draws());
        if i % 5000 == 0 {
            series.print(rt, pattern)?;
        } else {
            series.add(pattern);
        }
    }
    series.end(rt, part)
}

// The reading of a step's lines: with rain, pan and temperature of every class of patterns, good and bad in every way, with a fault at every
// place, with two, with every count, in a random series, and out of a file's bytes.
use crate::readings::{self, ABOVE_PAN, ABOVE_RAIN, BELOW_ZERO, TOO_COLD, TOO_HOT};
use forcing::file;
use forcing::list::{self, Line, Reading, Readings};
use std::io;
use testing::chance::Chance;
use testing::checksum::Checksum;
use testing::lines::Row;
use testing::patterns::{PATTERNS, TEMPERATURES};
use testing::refusals;

// A second line whose rain is each pattern, measured and estimated, or missing: the numbers with each pattern as its pan.
pub fn patterns(rt: &impl Print) -> io::Result<()> {
    let mut sum = Checksum::default();
    for kind in [1, 2] {
        for rain in PATTERNS {
            with_pans(rt, kind, rain, &mut sum)?;
        }
    }
    with_pans(rt, 0, PATTERNS[0], &mut sum)?;
    println!(rt; "lines {sum}")
}

fn with_pans(rt: &impl Print, kind: u32, rain: u32, sum: &mut Checksum) -> io::Result<()> {
    print!(rt; "line {kind} {rain}")?;
    for pan in PATTERNS {
        second(rt, file::line_of(kind, rain, pan, ONE), sum)?;
    }
    println!(rt; "")
}

// The number with this second line of three.
fn second(rt: &impl Print, line: Line, sum: &mut Checksum) -> io::Result<()> {
    let mut lines = readings::good();
    lines[1] = line;
    let given = read(lines, 3, 3);
    given.add(sum);
    print!(rt; " {}", given.told[0])
}

const ONE: u32 = 0x3f80_0000;

// Kind, rain and pan: two good ones, bad rain, bad pan, both.
const WORDS: [[u32; 3]; 8] = [
    [1, ONE, ONE],
    [2, 0x447a_0000, 0x42c8_0000],
    [0, ONE, ONE],
    [1, 0x7fc0_0000, ONE],
    [2, 0x8000_0001, ONE],
    [1, ONE, 0x7f80_0000],
    [2, ONE, 0x42c8_0001],
    [1, 0x447a_0001, 0x8000_0001],
];

// A second line with these: the numbers with each pattern as its temperature.
pub fn temperatures(rt: &impl Print) -> io::Result<()> {
    let mut sum = Checksum::default();
    for [kind, rain, pan] in WORDS {
        print!(rt; "degrees {kind} {rain} {pan}")?;
        for patterns in [PATTERNS, TEMPERATURES] {
            for temperature in patterns {
                second(rt, file::line_of(kind, rain, pan, temperature), &mut sum)?;
            }
        }
        println!(rt; "")?;
    }
    println!(rt; "degrees {sum}")
}

const RAINS: [Reading; 7] = [
    Reading::Measured(1.0),
    Reading::Estimated(1.0),
    Reading::Missing,
    Reading::Measured(f32::NAN),
    Reading::Estimated(f32::INFINITY),
    Reading::Measured(BELOW_ZERO),
    Reading::Estimated(ABOVE_RAIN),
];

const PANS: [f32; 5] = [1.0, f32::NAN, f32::NEG_INFINITY, BELOW_ZERO, ABOVE_PAN];

const DEGREES: [f32; 6] = [
    1.0,
    f32::NAN,
    f32::INFINITY,
    f32::NEG_INFINITY,
    TOO_COLD,
    TOO_HOT,
];

// Rain, pan and temperature, each good or bad in every way, at each place: the numbers of the second line, with each temperature.
pub fn combinations(rt: &impl Print) -> io::Result<()> {
    let mut sum = Checksum::default();
    for (i, rain) in RAINS.into_iter().enumerate() {
        for (j, pan) in PANS.into_iter().enumerate() {
            print!(rt; "combination {i} {j}")?;
            for temperature in DEGREES {
                let line = Line {
                    rain,
                    pan,
                    temperature,
                };
                print!(rt; " {}", everywhere(line, &mut sum))?;
            }
            println!(rt; "")?;
        }
    }
    println!(rt; "combinations {sum}")
}

// A line at each place; the number that is given at the second.
fn everywhere(line: Line, sum: &mut Checksum) -> u64 {
    let mut number = 0;
    for at in 0..32 {
        let mut lines = readings::good();
        lines[at] = line;
        let given = read(lines, 32, 32);
        given.add(sum);
        if at == 1 {
            number = given.told[0];
        }
    }
    number
}

// A chosen line at a place, N and count at 32, up to the place and just before it.
pub fn faults(rt: &impl Print) -> io::Result<()> {
    let mut sum = Checksum::default();
    for (f, bad) in readings::chosen().into_iter().enumerate() {
        for at in 0..32 {
            let mut lines = readings::good();
            lines[at] = bad;
            let all = read(lines, 32, 32);
            let through = read(lines, at as u64 + 1, at as u64 + 1);
            let before = read(lines, at as u64, at as u64);
            for given in [all, through, before] {
                given.add(&mut sum);
            }
            if at % 10 == 1 {
                println!(rt;
                    "fault {f} {at}{}{}{}",
                    Row(&all.told),
                    Row(&through.told),
                    Row(&before.told)
                )?;
            }
        }
    }
    println!(rt; "faults {sum}")
}

// Two of them, at two places.
pub fn pairs(rt: &impl Print) -> io::Result<()> {
    let mut sum = Checksum::default();
    let chosen = readings::chosen();
    for at in 0..32 {
        for second in chosen {
            for first in chosen {
                let mut lines = readings::good();
                lines[at] = first;
                lines[(at + 7) % 32] = second;
                read(lines, 32, 32).add(&mut sum);
            }
        }
    }
    println!(rt; "pairs {sum}")
}

// N and counts.
const COUNTS: [u64; 10] = [
    0,
    1,
    2,
    16,
    31,
    32,
    33,
    34,
    4294967328,
    18446744073709551615,
];

// Every N with every count, with good lines and with a missing one.
pub fn counts(rt: &impl Print) -> io::Result<()> {
    let mut sum = Checksum::default();
    let good = readings::good();
    let mut missing = good;
    missing[1] = readings::chosen()[0];
    for lines in [good, missing] {
        for count in COUNTS {
            for n in COUNTS {
                let given = read(lines, count, n);
                println!(rt; "count {n} {count}{}", Row(&given.told))?;
                given.add(&mut sum);
            }
        }
    }
    println!(rt; "counts {sum}")
}

// N from 0 to 33, and one count of 16 is drawn too.
pub fn any(rt: &impl Print) -> io::Result<()> {
    let mut chance = Chance::new();
    let mut sum = Checksum::default();
    for i in 0..20000 {
        let [x, y] = chance.draws::<2>();
        let n = x % 34;
        let count = if y % 16 == 0 { y / 16 % 40 } else { n };
        let given = read(readings::any(&mut chance), count, n);
        if i % 2500 == 0 {
            print!(rt; "read {n} {count}")?;
            given.print(rt)?;
        }
        given.add(&mut sum);
    }
    println!(rt; "any {sum}")
}

// The first N of 32 lines, out of their own bytes and out of all.
pub fn bytes(rt: &impl Print) -> io::Result<()> {
    let mut chance = Chance::new();
    let mut sum = Checksum::default();
    for i in 0..2000 {
        let n = chance.next() % 33;
        let bytes = readings::bytes(&mut chance);
        let own = bytes.get(..16 * n as usize).unwrap_or(&bytes);
        let given = read(file::lines_of(own, n), n, n);
        let same = read(file::lines_of(&bytes, n), n, n);
        if i % 250 == 0 {
            print!(rt; "bytes {n}")?;
            given.print(rt)?;
        }
        given.add(&mut sum);
        same.add(&mut sum);
    }
    println!(rt; "bytes {sum}")
}

// A reading's numbers: number, place and estimated lines; rain of all lines, then pan, then temperature.
#[derive(Clone, Copy)]
struct Told {
    told: [u64; 3],
    rain: [u64; 32],
    pan: [u64; 32],
    temperature: [i64; 32],
}

impl Told {
    // A temperature below zero counts as 2^64 more.
    fn add(&self, sum: &mut Checksum) {
        sum.add_row(&self.told);
        sum.add_row(&self.rain);
        sum.add_row(&self.pan);
        for t in self.temperature {
            sum.add(t.cast_unsigned());
        }
    }

    fn print(&self, rt: &impl Print) -> io::Result<()> {
        print!(rt; "{}{}{}", Row(&self.told), Row(&self.rain), Row(&self.pan))?;
        for t in self.temperature {
            print!(rt; " {t}")?;
        }
        println!(rt; "")
    }
}

fn read(lines: [Line; 32], count: u64, n: u64) -> Told {
    let given = list::read(lines, count, n);
    let [number, place] = refusals::told(&given);
    let Readings { estimated, weather } = given.unwrap_or_default();
    Told {
        told: [number, place, estimated],
        rain: weather.map(|here| here.rain),
        pan: weather.map(|here| here.pan),
        temperature: weather.map(|here| here.temperature),
    }
}

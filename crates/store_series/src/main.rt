// Lists of inflows into one store, each taken by the store that the call before handed back: an outflow of a half and one just below, courses
// that show what rounding adds up to, on stores of many shares and on drawn ones, and inflows close to their limit. What it must print comes
// from the second model: `model expect store_series`.
#![tactic(auto)]

mod course;
mod series;

use course::Course;
use curve::store::Store;
use std::io;
use testing::chance::Chance;

fn main(rt: HostRuntime) -> io::Result<()> {
    halves(&rt)?;
    many(&rt)?;
    drawn(&rt)?;
    limits(&rt)
}

// An outflow of a half, one just below, and a store that lets out 20.5, which is rounded to what it gets, so that it stays as it is.
fn halves(rt: &impl Print) -> io::Result<()> {
    series::row(rt, Course::One, store(32768, 65536, 0), 1)?;
    series::row(rt, Course::Under, store(1, 65536, 0), 1)?;
    for count in [1, 10, 100, 1000, 3000] {
        series::row(rt, Course::Steady, store(656, 656, 2027), count)?;
    }
    Ok(())
}

// a and g: one share for both, none of the inflow, less of it than of the content, and all of the content.
const SHARES: [(u64, u64); 14] = [
    (65536, 65536),
    (32768, 32768),
    (6554, 6554),
    (3277, 3277),
    (1311, 1311),
    (656, 656),
    (1, 1),
    (0, 1),
    (0, 656),
    (2000, 6554),
    (16384, 49152),
    (32768, 65536),
    (1, 65536),
    (0, 65536),
];

const COURSES: [Course; 6] = [
    Course::None,
    Course::Few,
    Course::Small,
    Course::Mixed,
    Course::Low,
    Course::High,
];

fn many(rt: &impl Print) -> io::Result<()> {
    for (a, g) in SHARES {
        for content in [0, 2027, 1000000] {
            for course in COURSES {
                series::row(rt, course, store(a, g, content), 1000)?;
            }
        }
    }
    Ok(())
}

// Shares and contents are drawn, a up to g.
fn drawn(rt: &impl Print) -> io::Result<()> {
    let mut chance = Chance::new();
    for _ in 0..100 {
        let [x, y, content] = chance.draws::<3>();
        let g = 1 + x % 65536;
        let a = y % (g + 1);
        for course in [Course::Few, Course::Mixed, Course::Low, Course::High] {
            series::row(rt, course, store(a, g, content), 300)?;
        }
    }
    Ok(())
}

// The last three have a share above its limit.
const LIMITS: [(u64, u64); 8] = [
    (65536, 65536),
    (65535, 65535),
    (65000, 65536),
    (32768, 32768),
    (1, 1),
    (65537, 65537),
    (65537, 0),
    (0, 65537),
];

fn limits(rt: &impl Print) -> io::Result<()> {
    for (a, g) in LIMITS {
        for content in [0, 1 << 56] {
            series::row(rt, Course::Much, store(a, g, content), 20)?;
        }
    }
    Ok(())
}

fn store(a: u64, g: u64, content: u64) -> Store {
    Store { a, g, content }
}

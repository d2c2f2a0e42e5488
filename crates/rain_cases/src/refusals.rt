// Sub-basin numbers and pans, good and bad, on basins of 1, 2 and 32: a line for each, with N, the number and which pan, and the
// answers for the least depth and the greatest. Then pans of every class of patterns.
use crate::asked::Question;
use basin_testing::calls;
use std::io;
use std::num::f32_from_bits_with_nan;
use testing::chance::Chance;
use testing::choices::Choice;
use testing::drafts::Plan;
use testing::lines::Row;
use testing::patterns::PATTERNS;

// N and M.
const SIZES: [(u64, u64); 3] = [(1, 0), (2, 1), (32, 31)];

// Three that are good, one that is no number, two infinite, one below zero and one above the limit.
const PANS: [f32; 8] = [
    0.0,
    -0.0,
    100.0,
    f32::NAN,
    f32::INFINITY,
    f32::NEG_INFINITY,
    -0.25,
    100.0625,
];

pub fn rows(rt: &impl Print) -> io::Result<()> {
    let mut chance = Chance::new();
    for (n, m) in SIZES {
        for number in [0, 1, n, n % 33 + 1, 33, u64::MAX] {
            for (k, pan) in PANS.into_iter().enumerate() {
                let b = calls::started(Plan::chain(Choice::Ordinary, n, m), &mut chance);
                let q = Question {
                    basin: &b,
                    number,
                    pan,
                };
                let least = q.told(0);
                let greatest = q.told(u64::MAX);
                println!(rt; "asked {n} {number} {k}{}{}", Row(&least), Row(&greatest))?;
            }
        }
    }
    Ok(())
}

// Each pattern as the pan of a good question, of one with a bad sub-basin number, and of a basin with a bad area.
pub fn pans(rt: &impl Print) -> io::Result<()> {
    let good = calls::started(Plan::chain(Choice::Ordinary, 2, 1), &mut Chance::new());
    let mut outside = good;
    outside.subs[0].fixed.area = 0;
    for pattern in PATTERNS {
        let pan = f32_from_bits_with_nan(pattern);
        print!(rt; "pattern {pattern}")?;
        for (basin, number) in [(&good, 2), (&good, 3), (&outside, 3)] {
            let q = Question { basin, number, pan };
            print!(rt; "{}", Row(&q.told(0)))?;
        }
        println!(rt; "")?;
    }
    Ok(())
}

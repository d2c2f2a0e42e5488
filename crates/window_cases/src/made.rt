// Windows made for n inside its range, at both its ends, beyond and far off, and three arrivals into each.
use crate::told;
use std::io;

const STEPS: [u64; 13] = [
    0,
    1,
    2,
    3,
    63,
    64,
    65,
    66,
    1000,
    4294967296, // 2^32
    4294967297,
    9223372036854775808, // 2^63
    u64::MAX,
];

pub fn rows(rt: &impl Print) -> io::Result<()> {
    for n in STEPS {
        let mut window = told::make(rt, n)?;
        for volume in [5, 0, u64::MAX] {
            told::arrive(rt, &mut window, volume)?;
        }
    }
    Ok(())
}

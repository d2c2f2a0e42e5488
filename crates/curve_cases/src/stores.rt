// Stores whose outflow, before it is rounded, is a half above a whole number or beside that, up to the limits; and ground stores that get
// nothing, until they let out nothing more.
use crate::calls::Call;
use curve::store::Store;
use std::io;
use testing::checksum::Checksum;

pub fn print(rt: &impl Print) -> io::Result<()> {
    halves(rt)?;
    left_alone(rt)
}

// Shares, each with an amount of which it is a half above a whole number.
const HALVES: [(u64, u64); 6] = [
    (1, 32768),
    (16384, 2),
    (32768, 3),
    (49152, 2),
    (65534, 16384),
    (65535, 32768),
];

// Of each two shares a checksum; where they are one share, the small amounts are printed in full.
fn halves(rt: &impl Print) -> io::Result<()> {
    for (a, half_of_a) in HALVES {
        for (g, half_of_g) in HALVES {
            let mut sum = Checksum::default();
            for (i, content) in around(half_of_g, 1 << 56).into_iter().enumerate() {
                for (j, inflow) in around(half_of_a, 1 << 62).into_iter().enumerate() {
                    let call = Call::Store(Store { a, g, content }, inflow);
                    if a == g && i < 4 && j < 4 {
                        call.print(rt)?;
                    }
                    call.add(&mut sum);
                }
            }
            println!(rt; "halves {a} {g} {sum}")?;
        }
    }
    Ok(())
}

// As 65,536 divides the limit, what is as far below it as a half is above 0 is a half too.
fn around(half: u64, most: u64) -> [u64; 8] {
    let last = most.saturating_sub(half);
    [
        0,
        half.saturating_sub(1),
        half,
        half.saturating_add(1),
        last.saturating_sub(1),
        last,
        last.saturating_add(1),
        most,
    ]
}

// CG 0, 0.5, 0.9, 0.95, 0.98, 0.99 and the greatest.
const RECESSIONS: [u64; 7] = [0, 32768, 58982, 62259, 64225, 64880, 65535];

fn left_alone(rt: &impl Print) -> io::Result<()> {
    for cg in RECESSIONS {
        for content in [100, 1000000] {
            let g = 65536 - cg;
            let (steps, left) = drained(Store { a: g, g, content });
            println!(rt; "left alone {cg} {content} {steps} {left}")?;
        }
    }
    Ok(())
}

// In how many steps, and what is left.
fn drained(mut store: Store) -> (u64, u64) {
    for steps in 0..1000000 {
        let taken = store.take(0);
        if taken.outflow == Ok(0) {
            return (steps, store.content);
        }
        store = taken.store;
    }
    (1000000, store.content)
}

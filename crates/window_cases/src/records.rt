// Every record of small numbers: n and count up to 3, and volumes and ages up to 2 in the first three places. The volume 1 into each, and a
// line for each n and count.
use crate::lists;
use crate::tally::Tally;
use std::io;
use window::{Kept, MOST, Window};

pub fn rows(rt: &impl Print) -> io::Result<()> {
    for n in 0..4 {
        for count in 0..4 {
            let mut tally = Tally::default();
            for number in 0..729 {
                tally.arrive(&record(n, count, number), 1);
            }
            println!(rt; "records {n} {count} {tally}")?;
        }
    }
    Ok(())
}

// By a number to base 3.
fn record(n: u64, count: usize, number: u64) -> Window {
    let [v0, a0, v1, a1, v2, a2] = lists::digits(number);
    let mut kept = [Kept::default(); MOST];
    kept[0] = Kept {
        volume: v0,
        age: a0,
    };
    kept[1] = Kept {
        volume: v1,
        age: a1,
    };
    kept[2] = Kept {
        volume: v2,
        age: a2,
    };
    Window { n, count, kept }
}

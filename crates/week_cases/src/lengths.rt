// Lists of whole steps, of a line more and of a line less, and of more than 1,000 steps: a line for each, with N, M and its length.
use crate::list;
use crate::told::Told;
use basin_testing::calls;
use std::io;
use testing::chance::Chance;
use testing::choices::Choice;
use testing::drafts::Plan;

// N, M and the lengths.
const LISTS: [(u64, u64, [usize; 11]); 3] = [
    (1, 0, [0, 1, 2, 6, 7, 8, 999, 1000, 1001, 2047, 2048]),
    (2, 1, [0, 1, 2, 3, 13, 14, 15, 1999, 2000, 2001, 2002]),
    (
        32,
        31,
        [0, 31, 32, 33, 223, 224, 225, 2015, 2016, 2017, 2048],
    ),
];

pub fn rows(rt: &impl Print) -> io::Result<()> {
    let mut chance = Chance::new();
    let mut told = Told::default();
    for (n, m, lengths) in LISTS {
        for long in lengths {
            let mut b = calls::started(Plan::chain(Choice::Ordinary, n, m), &mut chance);
            let lines = list::drawn(long, &mut chance);
            print!(rt; "list {n} {m} {long}")?;
            told.week(rt, &mut b, &lines)?;
        }
    }
    println!(rt; "lists {told}")
}

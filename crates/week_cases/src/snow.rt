// Three weeks from frost to thaw, each on the basin that the one before hands back, and after each the same with a bad temperature in the
// last line of its fourth step. A line for each, with N, M and the week's number.
use crate::list;
use crate::told::Told;
use basin_testing::calls;
use basin_testing::weather::Fault;
use std::io;
use testing::chance::{self, Chance};
use testing::choices::Choice;
use testing::drafts::Plan;

// N and M.
const SIZES: [(u64, u64); 4] = [(1, 0), (2, 1), (7, 5), (32, 31)];

pub fn rows(rt: &impl Print) -> io::Result<()> {
    let mut chance = Chance::new();
    let mut told = Told::default();
    for (n, m) in SIZES {
        let mut b = calls::started(Plan::chain(Choice::Ordinary, n, m), &mut chance);
        for week in 0..3 {
            let mut lines = list::course(n, 4 + 7 * week, &mut chance);
            let mut other = b;
            print!(rt; "snow {n} {m} {week}")?;
            told.week(rt, &mut b, &lines)?;
            let fault = chance::one_of(Fault::ALL, 9 + week);
            list::spoil(&mut lines, (n % 33 * 4).saturating_sub(1) as usize, fault);
            print!(rt; "cut short {n} {m} {week}")?;
            told.week(rt, &mut other, &lines)?;
        }
    }
    println!(rt; "snow {told}")
}

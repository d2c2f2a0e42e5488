// A bad line in a week of five steps on three sub-basins: each fault, in the first, the middle and the last step, in its first and its
// last line. A line for each, with fault, step and line.
use crate::list;
use crate::told::Told;
use basin_testing::calls;
use basin_testing::weather::Fault;
use std::io;
use testing::chance::Chance;
use testing::choices::Choice;
use testing::drafts::Plan;

pub fn rows(rt: &impl Print) -> io::Result<()> {
    let mut chance = Chance::new();
    let mut told = Told::default();
    for (k, fault) in Fault::ALL.into_iter().enumerate() {
        for step in [1, 3, 5] {
            for line in [1, 3] {
                let mut b = calls::started(Plan::chain(Choice::Ordinary, 3, 2), &mut chance);
                let mut lines = list::drawn(15, &mut chance);
                list::spoil(&mut lines, 3 * (step - 1) + line - 1, fault);
                print!(rt; "bad line {k} {step} {line}")?;
                told.week(rt, &mut b, &lines)?;
            }
        }
    }
    println!(rt; "bad lines {told}")
}

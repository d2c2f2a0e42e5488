// Case A of document 01 as one week: it stops at the second of its three steps.
use crate::told::Told;
use basin_testing::calls;
use basin_testing::weather::CASE_A;
use std::io;

pub fn row(rt: &impl Print) -> io::Result<()> {
    let mut b = calls::case_a();
    let mut told = Told::default();
    print!(rt; "case A")?;
    told.week(rt, &mut b, &CASE_A)?;
    println!(rt; "case A {told}")
}

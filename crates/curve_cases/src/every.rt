// Both roots of every t from 0 to 65,537, one beyond the limit, Power for some e, and Power by the table for one that takes every root: a
// checksum each. Then both Powers for every e, at t from 65,536 down by 127.
use crate::calls::Call;
use std::io;
use testing::checksum::Checksum;

pub fn shares(rt: &impl Print) -> io::Result<()> {
    every(rt, 0, |t| Call::Root(t))?;
    every(rt, 0, |t| Call::RootByTable(t))?;
    for e in [15, 16, 17, 24, 31] {
        every(rt, e, |t| Call::Power(t, e))?;
    }
    every(rt, 31, |t| Call::PowerByTable(t, 31))?;
    for e in [32, 33, 40, 47, 48, 49] {
        every(rt, e, |t| Call::Power(t, e))?;
    }
    Ok(())
}

fn every<F: Fn(u64) -> Call>(rt: &impl Print, e: u64, call: F) -> io::Result<()>
    requires { F.IsAlwaysCallable call }
{
    let mut sum = Checksum::default();
    for t in 0..65538 {
        call(t).add(&mut sum);
    }
    println!(rt; "every {} {e} {sum}", call(0).name())
}

pub fn exponents(rt: &impl Print) -> io::Result<()> {
    for e in 15..50 {
        spread(rt, e, |t| Call::Power(t, e))?;
        spread(rt, e, |t| Call::PowerByTable(t, e))?;
    }
    Ok(())
}

fn spread<F: Fn(u64) -> Call>(rt: &impl Print, e: u64, call: F) -> io::Result<()>
    requires { F.IsAlwaysCallable call }
{
    let mut sum = Checksum::default();
    for t in (0..=65536).rev().step_by(127) {
        call(t).add(&mut sum);
    }
    println!(rt; "spread {} {e} {sum}", call(0).name())
}

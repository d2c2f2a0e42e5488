// Root, Held and Ordinate with tables of roots that mislead: they answer as they do by the printed one. For each table a checksum of every
// root and one of a random series.
use crate::calls::Numbers;
use crate::random;
use common::refusal::Refusal;
use curve::capacity::{self, Roots};
use std::io;
use testing::chance::Chance;
use testing::checksum::Checksum;

pub fn series(rt: &impl Print) -> io::Result<()> {
    let roots = capacity::printed_roots();
    line(rt, "printed", &roots)?;
    // Each entry is one more or one less.
    line(rt, "off by one", &roots.map(|root| root ^ 1))?;
    line(rt, "zeros", &[0; 1024])?;
    line(rt, "ones", &[1; 1024])?;
    line(rt, "8191", &[8191; 1024])?;
    line(rt, "4294967295", &[u32::MAX; 1024])
}

fn line(rt: &impl Print, name: &str, roots: &Roots) -> io::Result<()> {
    println!(rt; "lent {name} {} {}", every_root(roots), drawn(roots))
}

fn every_root(roots: &Roots) -> Checksum {
    let mut sum = Checksum::default();
    for t in 0..65538 {
        add(&mut sum, capacity::root(roots, t));
    }
    sum
}

// A Held and an Ordinate of the same draws.
fn drawn(roots: &Roots) -> Checksum {
    let mut chance = Chance::new();
    let mut sum = Checksum::default();
    for _ in 0..10000 {
        let mut same = chance;
        let (curve, a) = random::held(&mut same);
        add(&mut sum, curve.held(roots, a));
        let (curve, w) = random::ordinate(&mut chance);
        add(&mut sum, curve.ordinate(roots, w));
    }
    sum
}

fn add(sum: &mut Checksum, given: Result<u64, Refusal>) {
    sum.add_row(Numbers::from(given).as_slice());
}

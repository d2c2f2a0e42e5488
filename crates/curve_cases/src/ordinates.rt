// The ordinate of every w and of one beyond, a checksum for each curve: with c and m up to 12; with every power that can be wanted, of every
// exponent; with the greatest c and the least m, the least c and the greatest m; and beside 65,536.
use crate::calls::Call;
use curve::capacity::Curve;
use std::io;
use testing::checksum::Checksum;

// c and m.
const ENDS: [(u64, u64); 5] = [
    (500000, 1),
    (1, 2000000),
    (65535, 65537),
    (65537, 65535),
    (500000, 65536),
];

pub fn print(rt: &impl Print) -> io::Result<()> {
    for e in 16..49 {
        println!(rt; "small {e} {}", small(e))?;
    }
    for e in 16..49 {
        let (c, m) = (65536, 2000000);
        line(rt, Curve { c, m, e })?;
    }
    for (c, m) in ENDS {
        for e in [16, 31, 48] {
            line(rt, Curve { c, m, e })?;
        }
    }
    Ok(())
}

fn line(rt: &impl Print, curve: Curve) -> io::Result<()> {
    let mut sum = Checksum::default();
    add_curve(&mut sum, curve);
    println!(rt; "curve {} {} {} {sum}", curve.c, curve.m, curve.e)
}

fn small(e: u64) -> Checksum {
    let mut sum = Checksum::default();
    for c in 1..13 {
        for m in 1..13 {
            add_curve(&mut sum, Curve { c, m, e });
        }
    }
    sum
}

fn add_curve(sum: &mut Checksum, curve: Curve) {
    for w in 0..curve.c.saturating_add(2) {
        Call::Ordinate(curve, w).add(sum);
    }
}

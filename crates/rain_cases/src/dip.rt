// A sub-basin where 7 mm yield 5 µm, and 8 mm 4: UM is 0, LM and DM are 200,000 and BN is 20, all else as in case A. With a pan and
// without, what the first rains yield, and a line for each of the first depths.
use crate::asked::Question;
use basin::state::Basin;
use basin_testing::calls;
use std::io;
use testing::lines::Row;

pub fn rows(rt: &impl Print) -> io::Result<()> {
    for pan in [0.0, 2.5] {
        under(rt, pan)?;
    }
    Ok(())
}

pub fn basin() -> Basin {
    let mut b = calls::case_a();
    let s = &mut b.subs[0];
    s.fixed.um = 0;
    s.fixed.lm = 200000;
    s.fixed.dm = 200000;
    s.fixed.bn = 20;
    b
}

fn under(rt: &impl Print, pan: f32) -> io::Result<()> {
    let b = basin();
    let q = Question {
        basin: &b,
        number: 1,
        pan,
    };
    let own = q.own();
    print!(rt; "yields {}", own.pan)?;
    for rain in 0..13 {
        print!(rt; " {}", own.yielded(rain))?;
    }
    println!(rt; "")?;
    for wanted in 0..13 {
        println!(rt; "dip {} {wanted}{}", own.pan, Row(&q.told(wanted)))?;
    }
    Ok(())
}

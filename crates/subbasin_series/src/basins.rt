// The sub-basins that the series start from.
use crate::choices;
use subbasin::record::SubBasin;
use testing::case_a;

pub fn case_a() -> SubBasin {
    SubBasin::from(case_a::WORDS)
}

// Every word away from its ends, and one amount in every place of the lag line that is in use.
pub fn middling() -> SubBasin {
    let mut s = SubBasin::from([
        800, 62000, 15000, 70000, 50000, 10000, 21, 1311, 25000, 23, 20000, 25000, 50000, 64000,
        40000, 5, 2, 5000, 30000, 20000, 3000, 1500, 90000, 4500, 750, 26000,
    ]);
    s.line.waiting.fill(1000000);
    s.channel = 5000000;
    choices::fit(&mut s);
    s
}

// The middling sub-basin where WL is the share C of LM exactly.
pub fn at_c_share() -> SubBasin {
    let mut s = middling();
    s.fixed.lm = 1000;
    s.fixed.c = 32768;
    s.contents.wl = 500;
    s
}

// The middling sub-basin with UM = DM = 0, and LM and SM given.
pub fn one_layer(lm: u64, sm: u64) -> SubBasin {
    let mut s = middling();
    s.fixed.um = 0;
    s.fixed.dm = 0;
    s.fixed.lm = lm;
    s.fixed.sm = sm;
    choices::fit(&mut s);
    s
}

// The middling sub-basin with KI and KG given.
pub fn drains(ki: u64, kg: u64) -> SubBasin {
    let mut s = middling();
    s.fixed.ki = ki;
    s.fixed.kg = kg;
    s
}

// The middling sub-basin with CI, CG and CS alike.
pub fn recessions(share: u64) -> SubBasin {
    let mut s = middling();
    set_recessions(&mut s, share);
    s
}

// The record with F, threshold and SN given.
pub fn snowy(record: SubBasin, [f, threshold, sn]: [u64; 3]) -> SubBasin {
    let mut s = record;
    s.fixed.f = f;
    s.fixed.threshold = threshold;
    s.contents.sn = sn;
    s
}

// Every number of the record at its limit, but for the recessions.
pub fn brimming(share: u64) -> SubBasin {
    let mut s = middling();
    choices::brim(&mut s);
    set_recessions(&mut s, share);
    s
}

fn set_recessions(s: &mut SubBasin, share: u64) {
    s.fixed.ci = share;
    s.fixed.cg = share;
    s.fixed.cs = share;
}

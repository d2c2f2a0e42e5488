// Snow words of every kind, of which no answer hangs: the temperature is the threshold, so that none falls and none melts. A line for each
// choice of F, threshold and SN, in the second of two ordinary sub-basins and in the one where more rain may yield less: what some rains
// yield, and the answers for some depths.
use crate::asked::Question;
use crate::{dip, drawn};
use basin::state::Basin;
use basin_testing::calls;
use std::io;
use testing::chance::Chance;
use testing::choices::Choice;
use testing::drafts::Plan;
use testing::lines::Row;

const SNOWS: [[u64; 3]; 6] = [
    [0, 0, 0],
    [0, 750, 26000],
    [4500, 750, 26000],
    [20000, 0, 1099511627776], // 2^40
    [20000, 10000, 3000000],
    [20000, 10000, 1099511627776],
];

pub fn rows(rt: &impl Print) -> io::Result<()> {
    let mut chance = Chance::new();
    let mut ordinary = calls::started(Plan::chain(Choice::Ordinary, 2, 1), &mut chance);
    drawn::go_on(&mut ordinary, &mut chance, 12);
    under(rt, "ordinary", &ordinary, 2)?;
    under(rt, "dip", &dip::basin(), 1)
}

fn under(rt: &impl Print, name: &str, b: &Basin, number: u64) -> io::Result<()> {
    for [f, threshold, sn] in SNOWS {
        let mut snowy = *b;
        let s = &mut snowy.subs[((number % 32 + 31) % 32) as usize];
        s.fixed.f = f;
        s.fixed.threshold = threshold;
        s.contents.sn = sn;
        let q = Question {
            basin: &snowy,
            number,
            pan: 2.5,
        };
        let own = q.own();
        print!(rt; "snow {name} {f} {threshold} {sn}")?;
        print!(rt; "{}", Row(&[2, 3, 60, 1000].map(|rain| own.yielded(rain))))?;
        for wanted in [0, 1, 5, 100000, 1000000] {
            print!(rt; "{}", Row(&q.told(wanted)))?;
        }
        println!(rt; "")?;
    }
    Ok(())
}

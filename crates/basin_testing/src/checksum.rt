// The checksum over a basin: N and M, all records and all reaches.
use crate::places;
use basin::state::Basin;
use testing::checksum::Checksum;

pub fn add_basin(sum: &mut Checksum, b: &Basin) {
    sum.add_row(&[b.n, b.m]);
    for s in &b.subs {
        sum.add_record(s);
    }
    for r in &b.reaches {
        sum.add_row(&places::numbers_of(r));
    }
}

// Of one basin alone.
pub fn of_basin(b: &Basin) -> Checksum {
    let mut sum = Checksum::default();
    add_basin(&mut sum, b);
    sum
}

// A series of calls, each on the record that the one before handed back, folded into a checksum.
use crate::calls::{self, Call};
use common::weather::Weather;
use std::io;
use subbasin::record::SubBasin;
use testing::chance::Chance;
use testing::checksum::Checksum;
use testing::climate::Climate;
use testing::ranges::Edge;

// Every 16th call is astray, and every 2,500th printed in full.
pub fn run(
    rt: &impl Print,
    record: &mut SubBasin,
    climate: Climate,
    chance: &mut Chance,
    count: usize,
) -> io::Result<Checksum> {
    let mut call = Call {
        record: *record,
        weather: Weather::default(),
    };
    let mut sum = Checksum::default();
    for i in 0..count {
        call.weather = climate.weather(i as u64, chance.draws());
        if i % 16 == 7 {
            astray(&mut call, i / 16, &mut sum);
        } else {
            let given = if i % 2500 == 1250 {
                call.print(rt)?
            } else {
                call.take()
            };
            calls::add(&mut sum, &given, &call.record);
        }
    }
    *record = call.record;
    Ok(sum)
}

// One number is outside its range, place after place: above it, and in every second round below it. In the record that is handed
// back it is put right again.
fn astray(call: &mut Call, k: usize, sum: &mut Checksum) {
    let place = k % calls::PLACES;
    let edge = match k / calls::PLACES % 2 {
        0 => Edge::Above,
        _ => Edge::Below,
    };
    let mut other = call.edged(place, edge);
    let given = other.take();
    calls::add(sum, &given, &other.record);
    call.go_on(&other, place);
}

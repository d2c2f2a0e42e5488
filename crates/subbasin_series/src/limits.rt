// Every number of a call in turn: one below its least, at its least, at its most, one above, and at the greatest of its type.
use crate::calls::{self, Call};
use common::weather::Weather;
use std::io;
use subbasin::record::SubBasin;
use testing::checksum::Checksum;
use testing::lines::Row;
use testing::ranges::Edge;
use testing::refusals;

pub fn places(rt: &impl Print, record: SubBasin) -> io::Result<()> {
    let call = Call {
        record,
        weather: Weather::default(),
    };
    for place in 0..calls::PLACES {
        line(rt, &call, place)?;
    }
    Ok(())
}

// Temperatures about zero, at the ends of their range and one outside, and the least and the greatest i64.
const TEMPERATURES: [i64; 9] = [i64::MIN, -80001, -80000, -1, 0, 1, 60000, 60001, i64::MAX];

// A line for each, with it, number and place, and the checksum of the answer, under some rain.
pub fn temperatures(rt: &impl Print, record: SubBasin) -> io::Result<()> {
    for temperature in TEMPERATURES {
        let mut call = Call {
            record,
            weather: Weather {
                rain: 20000,
                pan: 0,
                temperature,
            },
        };
        let mut sum = Checksum::default();
        let given = call.take();
        calls::add(&mut sum, &given, &call.record);
        println!(rt;
            "temperature {temperature}{} {sum}",
            Row(&refusals::told(&given))
        )?;
    }
    Ok(())
}

// The place, the refusal number of each of the five, and the checksum of their answers.
fn line(rt: &impl Print, call: &Call, place: usize) -> io::Result<()> {
    let mut sum = Checksum::default();
    print!(rt; "limits {place}")?;
    for edge in Edge::ALL {
        let mut here = call.edged(place, edge);
        let given = here.take();
        print!(rt; " {}", refusals::told(&given)[0])?;
        calls::add(&mut sum, &given, &here.record);
    }
    println!(rt; " {sum}")
}

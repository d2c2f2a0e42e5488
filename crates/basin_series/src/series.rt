// A series of steps, each on the basin that the one before handed back, folded into a checksum.
use crate::faults;
use basin::state::Basin;
use basin::step::Report;
use basin_testing::checksum::add_basin;
use basin_testing::weather;
use common::refusal::Refused;
use std::io;
use testing::chance::Chance;
use testing::checksum::Checksum;
use testing::lines::Row;
use testing::refusals;

// Every 16th step is astray, and the series then goes on from the basin before; every 72nd is printed.
pub fn run(
    rt: &impl Print,
    b: &mut Basin,
    chance: &mut Chance,
    count: u64,
) -> io::Result<Checksum> {
    let mut sum = Checksum::default();
    for i in 0..count {
        let lines = weather::drawn(i, chance);
        if i % 16 == 7 {
            let mut call = faults::astray(b, &lines, chance);
            let given = call.basin.step(call.lines, call.count);
            add(&mut sum, &given, &call.basin);
        } else {
            let given = b.step(lines, b.n);
            if i % 72 == 0 {
                print(rt, i, &given)?;
            }
            add(&mut sum, &given, b);
        }
    }
    Ok(sum)
}

// Every number of an answer: number and place, the report, the basin.
pub fn add(sum: &mut Checksum, given: &Result<Report, Refused>, after: &Basin) {
    add_report(sum, given);
    add_basin(sum, after);
}

// All but the basin.
pub fn add_report(sum: &mut Checksum, given: &Result<Report, Refused>) {
    sum.add_row(&refusals::told(given));
    sum.add_row(&given.unwrap_or_default().numbers());
}

// A step as the program prints it: document 01, "What the program prints".
pub fn print(rt: &impl Print, i: u64, given: &Result<Report, Refused>) -> io::Result<()> {
    match given {
        Ok(report) => println!(rt; "{i} ok{}", Row(&report.numbers())),
        Err(refused) => println!(rt; "{i} refused {} {}", refused.why.number(), refused.place),
    }
}

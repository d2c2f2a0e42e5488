// The sub-basin's own call. A line for every number of a record, with its place, and the answers where it is below its range, at both
// its ends, above, and the greatest u64; REACH isn't judged. Then a line for each pan depth, with it, on three records.
use crate::asked::Own;
use crate::{dip, drawn};
use basin::state::Basin;
use basin_testing::{calls, places};
use std::io;
use testing::chance::Chance;
use testing::choices::Choice;
use testing::drafts::Plan;
use testing::lines::Row;
use testing::ranges::Edge;
use testing::rows;

const PANS: [u64; 6] = [0, 1, 99999, 100000, 100001, u64::MAX];

pub fn rows(rt: &impl Print) -> io::Result<()> {
    let mut chance = Chance::new();
    let fresh = calls::started(Plan::chain(Choice::Ordinary, 1, 0), &mut chance);
    let mut worn = fresh;
    drawn::go_on(&mut worn, &mut chance, 12);
    numbers(rt, &worn)?;
    let records = [fresh.subs[0], worn.subs[0], dip::basin().subs[0]];
    for pan in PANS {
        print!(rt; "pan {pan}")?;
        for sub in records {
            let own = Own { sub, pan };
            for wanted in [0, 5, u64::MAX] {
                print!(rt; "{}", Row(&own.told(wanted)))?;
            }
        }
        println!(rt; "")?;
    }
    Ok(())
}

// Every place of the first record.
fn numbers(rt: &impl Print, b: &Basin) -> io::Result<()> {
    for place in 0..rows::PLACES {
        print!(rt; "number {place}")?;
        for edge in Edge::ALL {
            let mut here = *b;
            places::put_edge(&mut here, 2 + place, edge);
            let own = Own {
                sub: here.subs[0],
                pan: 2000,
            };
            print!(rt; "{}", Row(&own.told(5000)))?;
        }
        println!(rt; "")?;
    }
    Ok(())
}

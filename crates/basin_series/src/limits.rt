// Every number of a basin in turn: one below its least, at its least, at its most, one above, and at the greatest u64.
use crate::series;
use basin::state::Basin;
use basin_testing::{places, weather};
use std::io;
use testing::chance::Chance;
use testing::checksum::Checksum;
use testing::lines::Row;
use testing::ranges::Edge;
use testing::refusals;
use testing::spots::Spot;

// The place and the refusal number of each of the five are printed for N and M, for every tenth record and for every tenth reach.
pub fn print(rt: &impl Print, b: &Basin, chance: &mut Chance) -> io::Result<()> {
    let mut sum = Checksum::default();
    for place in 0..places::PLACES {
        let mut told = [0; 5];
        for (k, edge) in Edge::ALL.into_iter().enumerate() {
            let lines = weather::drawn(32 * k as u64, chance);
            let mut here = *b;
            places::put_edge(&mut here, place, edge);
            let given = here.step(lines, b.n);
            told[k] = refusals::told(&given)[0];
            series::add(&mut sum, &given, &here);
        }
        if is_shown(place) {
            println!(rt; "place {place}{}", Row(&told))?;
        }
    }
    println!(rt; "limits {sum}")
}

fn is_shown(place: usize) -> bool {
    match places::spot_of(place) {
        Spot::N | Spot::M => true,
        Spot::Sub { index, .. } => index % 10 == 2,
        Spot::Reach { index, .. } => index % 10 == 1,
    }
}

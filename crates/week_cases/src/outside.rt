// 9 before the length and for an empty list: numbers of a basin of two sub-basins below their range, at both its ends and above, each
// with an empty list, seven steps, a line more and 1,001 steps. A line for each, with the number's place, its edge and the length.
use crate::list;
use crate::told::Told;
use basin_testing::{calls, places};
use std::io;
use testing::chance::Chance;
use testing::choices::Choice;
use testing::drafts::Plan;
use testing::ranges::Edge;

// N and M; AREA, VG, SN and the channel store of the first sub-basin; REACH of the second; AREA of the third, which is unused; next and
// content of the reach; content of the last reach, which is unused.
const PLACES: [usize; 11] = [0, 1, 2, 24, 27, 43, 60, 86, 1348, 1349, 1469];

const LENGTHS: [usize; 4] = [0, 14, 15, 2002];

pub fn rows(rt: &impl Print) -> io::Result<()> {
    let mut chance = Chance::new();
    let mut told = Told::default();
    for place in PLACES {
        for (k, edge) in Edge::NEAR.into_iter().enumerate() {
            for long in LENGTHS {
                let mut b = calls::started(Plan::chain(Choice::Ordinary, 2, 1), &mut chance);
                let lines = list::drawn(long, &mut chance);
                places::put_edge(&mut b, place, edge);
                print!(rt; "place {place} {k} {long}")?;
                told.week(rt, &mut b, &lines)?;
            }
        }
    }
    println!(rt; "places {told}")
}

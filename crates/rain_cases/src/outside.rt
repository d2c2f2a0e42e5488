// 9 before 11, and 11 before the pan's refusals: numbers of a basin of two sub-basins below their range, at both its ends and above. A
// line for each, with the number's place and its edge, and the answers for a good question, one with a bad sub-basin number, two with a
// bad pan, and two with both.
use crate::asked::Question;
use basin_testing::{calls, places};
use std::io;
use testing::chance::Chance;
use testing::choices::Choice;
use testing::drafts::Plan;
use testing::lines::Row;
use testing::ranges::Edge;

// N and M; AREA, WU, VG, SN, the first amount in waiting and the channel store of the first sub-basin; REACH of the second; AREA of the
// third, which is unused; next and content of the reach; content of the last reach, which is unused.
const PLACES: [usize; 13] = [0, 1, 2, 19, 24, 27, 28, 43, 60, 86, 1348, 1349, 1469];

// Sub-basin numbers and pans.
const QUESTIONS: [(u64, f32); 6] = [
    (2, 100.0),
    (3, 100.0),
    (2, f32::NAN),
    (2, 100.0625),
    (0, f32::NAN),
    (33, 100.0625),
];

pub fn rows(rt: &impl Print) -> io::Result<()> {
    let mut chance = Chance::new();
    for place in PLACES {
        for (k, edge) in Edge::NEAR.into_iter().enumerate() {
            let mut b = calls::started(Plan::chain(Choice::Ordinary, 2, 1), &mut chance);
            places::put_edge(&mut b, place, edge);
            print!(rt; "place {place} {k}")?;
            for (number, pan) in QUESTIONS {
                let q = Question {
                    basin: &b,
                    number,
                    pan,
                };
                print!(rt; "{}", Row(&q.told(5000)))?;
            }
            println!(rt; "")?;
        }
    }
    Ok(())
}

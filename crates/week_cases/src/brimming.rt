// Basins of 32 sub-basins and 31 reaches with every amount at its limit. Where not all flows at once, the first step carries stores
// beyond their limits, and the next one gets 9 inside the week.
use crate::list;
use crate::told::Told;
use basin_testing::calls;
use basin_testing::places::Brim;
use std::io;
use testing::chance::Chance;
use testing::choices::Choice;
use testing::drafts::{Plan, Shape};

const LENGTHS: [usize; 5] = [0, 32, 33, 64, 224];

pub fn rows(rt: &impl Print) -> io::Result<()> {
    let mut chance = Chance::new();
    let mut told = Told::default();
    for brim in Brim::ALL {
        for shape in Shape::OWN {
            row(rt, brim, shape, &mut chance, &mut told)?;
        }
    }
    println!(rt; "brimming {told}")
}

// Weeks of the basin, and after each an empty list for the one that it hands back.
fn row(
    rt: &impl Print,
    brim: Brim,
    shape: Shape,
    chance: &mut Chance,
    told: &mut Told,
) -> io::Result<()> {
    let mut full = calls::started(Plan::new(Choice::Most, shape, 32, 31), chance);
    brim.fill(&mut full);
    for long in LENGTHS {
        let mut b = full;
        let lines = list::drawn(long, chance);
        print!(rt; "{shape} {brim} {long}")?;
        told.week(rt, &mut b, &lines)?;
        print!(rt; "{shape} {brim} 0")?;
        told.week(rt, &mut b, &[])?;
    }
    Ok(())
}

// The series that are run: a line for each, with its shape, its choice of words, N, M and its checksum.
use crate::series;
use basin_testing::places::Brim;
use basin_testing::{calls, places};
use std::io;
use testing::chance::Chance;
use testing::choices::Choice;
use testing::drafts::{Plan, SIZES, Shape};

// Series of every shape with every choice and every size, and then from brimming basins of every shape; the generator goes on from
// series to series. Of every choice one last basin is printed, each of another size.
pub fn rows(rt: &impl Print) -> io::Result<()> {
    let mut chance = Chance::new();
    for (i, (n, m)) in SIZES.into_iter().enumerate() {
        for (j, choice) in Choice::DRAWN.into_iter().enumerate() {
            for shape in Shape::OWN {
                let plan = Plan::new(choice, shape, n, m);
                let mut b = calls::started(plan, &mut chance);
                let sum = series::run(rt, &mut b, &mut chance, 320)?;
                if i == j && shape == Shape::Chain {
                    places::print(rt, &b)?;
                }
                println!(rt; "{plan} {sum}")?;
            }
        }
    }
    for brim in Brim::ALL {
        for shape in Shape::OWN {
            brimming(rt, shape, brim, &mut chance)?;
        }
    }
    Ok(())
}

// Where not all flows at once, the first step leaves stores above their limits, and the others are refused.
fn brimming(rt: &impl Print, shape: Shape, brim: Brim, chance: &mut Chance) -> io::Result<()> {
    let mut b = calls::started(Plan::new(Choice::Most, shape, 32, 31), chance);
    brim.fill(&mut b);
    let sum = series::run(rt, &mut b, chance, 80)?;
    println!(rt; "{shape} {brim} {sum}")
}

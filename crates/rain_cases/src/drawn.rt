// Basins of every choice, shape and size, as loaded and after twelve steps of one spell: a line for each, with N, M, the steps, the
// sub-basin's number, the pan depth, the greatest depth that any rain yields, and the answers for seven depths.
use crate::asked::Question;
use basin::state::Basin;
use basin_testing::{calls, weather};
use std::io;
use testing::chance::Chance;
use testing::choices::Choice;
use testing::drafts::{Plan, Shape};
use testing::lines::Row;

// N and M.
const SIZES: [(u64, u64); 4] = [(1, 0), (2, 1), (7, 5), (32, 31)];

pub fn rows(rt: &impl Print) -> io::Result<()> {
    let mut chance = Chance::new();
    for steps in [0, 12] {
        for (n, m) in SIZES {
            for shape in Shape::OWN {
                for choice in Choice::DRAWN {
                    row(rt, Plan::new(choice, shape, n, m), steps, &mut chance)?;
                }
            }
        }
    }
    Ok(())
}

fn row(rt: &impl Print, plan: Plan, steps: u64, chance: &mut Chance) -> io::Result<()> {
    let mut b = calls::started(plan, chance);
    go_on(&mut b, chance, steps);
    print!(rt; "{plan} {steps}")?;
    questions(rt, &b, chance)
}

// Steps in the weather of one spell, every second of it.
pub fn go_on(b: &mut Basin, chance: &mut Chance, count: u64) {
    let spell = chance.x % 5 * 32;
    for k in 0..count {
        let lines = weather::drawn(spell.saturating_add(2 * (k % 16)), chance);
        let _ = b.step(lines, b.n);
    }
}

// A drawn sub-basin under a drawn pan: the least depths, the greatest that is yielded and the one after it, the greatest of all, a drawn
// one, and one more than a drawn rain yields.
fn questions(rt: &impl Print, b: &Basin, chance: &mut Chance) -> io::Result<()> {
    let [y, z, x1, x2, x3] = chance.draws::<5>();
    let q = Question {
        basin: b,
        number: (y % b.n.max(1)).wrapping_add(1),
        pan: pan(y / 1024 % 4, [x1, x2, x3]),
    };
    let own = q.own();
    let greatest = q.greatest();
    print!(rt; " {} {} {greatest}", q.number, own.pan)?;
    for wanted in [
        0,
        1,
        greatest,
        greatest.wrapping_add(1),
        u64::MAX,
        z % (greatest % 1048576 + 1001),
        own.yielded(y / 4096 % 1001).wrapping_add(1),
    ] {
        print!(rt; "{}", Row(&q.told(wanted)))?;
    }
    println!(rt; "")
}

// Often no water, and often the most.
fn pan(k: u64, draws: [u64; 3]) -> f32 {
    match k {
        0 => 0.0,
        1 => 100.0,
        _ => weather::line(128, draws).pan,
    }
}

// Lists that mix week calls with single steps, on basins of every shape; beside each runs a second basin that takes every step singly.
use crate::list::{self, List};
use crate::told::Told;
use crate::{singly, told};
use basin::state::Basin;
use basin::week::Week;
use basin_testing::weather::Fault;
use basin_testing::{calls, places};
use forcing::list::Line;
use std::io;
use testing::chance::{self, Chance};
use testing::choices::Choice;
use testing::drafts::{Plan, SIZES, Shape};

// A list as far as it has come: both basins, both checksums, and how many steps were accepted.
#[derive(Clone, Copy)]
struct Mixed {
    basin: Basin,
    beside: Basin,
    told: Told,
    taken: u64,
}

// A list for every size and shape; the choices go round beside them.
pub fn rows(rt: &impl Print) -> io::Result<()> {
    let mut chance = Chance::new();
    let mut choices = Choice::DRAWN.into_iter().cycle();
    for (n, m) in SIZES {
        for (shape, choice) in Shape::OWN.into_iter().zip(&mut choices) {
            let plan = Plan::new(choice, shape, n, m);
            let basin = calls::started(plan, &mut chance);
            let mut mixed = Mixed {
                basin,
                beside: basin,
                told: Told::default(),
                taken: 0,
            };
            for i in 0..64 {
                mixed.turn(rt, i, &mut chance)?;
            }
            println!(rt; "{plan} {} {}", mixed.taken, mixed.told)?;
        }
    }
    Ok(())
}

impl Mixed {
    // Of eight lists two are single steps, and one is a week on a basin with one number outside its range; the series then goes on from the
    // basin before.
    fn turn(&mut self, rt: &impl Print, i: u64, chance: &mut Chance) -> io::Result<()> {
        let n = self.basin.n % 33;
        let [y, z] = chance.draws::<2>();
        let long = length(n, y / 8, z);
        match y % 8 {
            0 | 1 => {
                let lines = drawn(n, [y, z], chance);
                let ran = singly::steps(&mut self.basin, &lines);
                self.go_on(rt, i, &ran, &lines)
            }
            2 => {
                self.astray(&drawn(long, [y, z], chance), [y, z]);
                Ok(())
            }
            _ => {
                let lines = drawn(long, [y, z], chance);
                let ran = week::week(&mut self.basin, &lines);
                self.go_on(rt, i, &ran, &lines)
            }
        }
    }

    // Every eighth list is printed.
    fn go_on(&mut self, rt: &impl Print, i: u64, ran: &Week, lines: &[Line]) -> io::Result<()> {
        let singly = singly::week(&mut self.beside, lines);
        if i % 8 == 0 {
            print!(rt; "{i} {}", lines.len())?;
            told::print(rt, ran, &self.basin)?;
        }
        self.told.add(ran, &self.basin, &singly, &self.beside);
        self.taken = self.taken.wrapping_add(ran.count);
        Ok(())
    }

    fn astray(&mut self, lines: &[Line], draws: [u64; 2]) {
        let mut basin = self.basin;
        let mut beside = self.beside;
        places::damage(&mut basin, draws);
        places::damage(&mut beside, draws);
        let ran = week::week(&mut basin, lines);
        let singly = singly::week(&mut beside, lines);
        self.told.add(&ran, &basin, &singly, &beside);
    }
}

// Of 0 to 8 steps; one in eight has a line more, and one a line less where there is one.
fn length(n: u64, y: u64, z: u64) -> u64 {
    let whole = y % 9 * (n % 33);
    match z % 8 {
        0 => whole + 1,
        1 => whole.saturating_sub(1),
        _ => whole,
    }
}

// Of one list in two two lines are bad, among its own and the one past them.
fn drawn(long: u64, [y, z]: [u64; 2], chance: &mut Chance) -> List {
    let mut lines = list::drawn(long as usize, chance);
    if z / 8 % 2 == 0 {
        let ends = lines.len() as u64 + 1;
        let first = (y / 128 % ends) as usize;
        let second = (z / 512 % ends) as usize;
        list::spoil(&mut lines, first, chance::one_of(Fault::ALL, z / 32));
        list::spoil(&mut lines, second, chance::one_of(Fault::ALL, y / 1024));
    }
    lines
}

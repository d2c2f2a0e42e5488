// What a week hands back, as a printed row and in a checksum.
use crate::singly;
use basin::state::Basin;
use basin::week::Week;
use basin_testing::checksum;
use forcing::list::Line;
use std::{fmt, io};
use testing::checksum::Checksum;
use testing::lines::Row;
use testing::refusals;

// The checksums of what weeks hand back and of what the same steps do singly.
#[derive(Clone, Copy, Default)]
pub struct Told {
    weeks: Checksum,
    steps: Checksum,
}

impl Told {
    // A week, printed to end a line, and again by single steps; the basin is then the one after the week.
    pub fn week(&mut self, rt: &impl Print, b: &mut Basin, lines: &[Line]) -> io::Result<()> {
        let mut beside = *b;
        let ran = week::week(b, lines);
        print(rt, &ran, b)?;
        let singly = singly::week(&mut beside, lines);
        self.add(&ran, b, &singly, &beside);
        Ok(())
    }

    // What both hand back, each with its basin.
    pub fn add(&mut self, ran: &Week, b: &Basin, singly: &Week, beside: &Basin) {
        add(&mut self.weeks, ran, b);
        add(&mut self.steps, singly, beside);
    }
}

// Both checksums, and whether they are the same.
impl fmt::Display for Told {
    fn fmt<W: fmt::Write>(&self, f: &mut fmt::Formatter<W>) -> fmt::Result {
        let verdict = if self.weeks == self.steps {
            "same"
        } else {
            "not the same"
        };
        write!(f, "{} {} {verdict}", self.weeks, self.steps)
    }
}

fn add(sum: &mut Checksum, ran: &Week, after: &Basin) {
    sum.add_row(&refusal_of(ran));
    sum.add(ran.count);
    sum.add_row(&ran.report.numbers());
    checksum::add_basin(sum, after);
}

pub fn print(rt: &impl Print, ran: &Week, after: &Basin) -> io::Result<()> {
    println!(rt;
        "{} {}{} {}",
        Row(&refusal_of(ran)),
        ran.count,
        Row(&ran.report.numbers()),
        checksum::of_basin(after)
    )
}

// Number and place.
fn refusal_of(ran: &Week) -> [u64; 2] {
    ran.refusal
        .map_or([0, 0], |refused| refusals::numbers(refused))
}

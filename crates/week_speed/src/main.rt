// How long a week takes, for model/bench: 1,000 steps on 2 sub-basins and 63 on 32, in one call, by single steps, and by single steps
// with a table of roots that is lent. `week_speed WAY N` takes a hundred weeks by one way, each on the basin that the one before handed
// back; without arguments it takes one by each, which is a test.
#![tactic(auto)]

use basin::state::Basin;
use basin::step::Report;
use basin_testing::{calls, checksum, weather};
use common::refusal::Refused;
use curve::capacity::{self, Roots};
use forcing::list::Line;
use std::{array, env, fmt, io};
use testing::chance::Chance;
use testing::choices::Choice;
use testing::drafts::Plan;

#[derive(Clone, Copy)]
enum Way {
    Idle,
    Week,
    Steps,
    Lent,
}

// N, M, and a week's steps and lines.
#[derive(Clone, Copy)]
struct Size {
    n: u64,
    m: u64,
    steps: u64,
    lines: usize,
}

const SMALL: Size = Size {
    n: 2,
    m: 1,
    steps: 1000,
    lines: 2000,
};

const LARGE: Size = Size {
    n: 32,
    m: 31,
    steps: 63,
    lines: 2016,
};

fn main(rt: HostRuntime) -> io::Result<()> {
    let roots = capacity::printed_roots();
    let mut words = env::args(&rt)?;
    if let Some(word) = words.nth(1) {
        let size = words.next().map_or(LARGE, |size| Size::from(size.as_str()));
        return print(&rt, Way::from(word.as_str()), &roots, size, 100);
    }
    for size in [SMALL, LARGE] {
        for way in [Way::Week, Way::Steps, Way::Lent] {
            print(&rt, way, &roots, size, 1)?;
        }
    }
    Ok(())
}

// By its first letter; any other word is idle.
impl From<&str> for Way {
    fn from(word: &str) -> Way {
        match word.as_bytes() {
            [b'w', ..] => Way::Week,
            [b's', ..] => Way::Steps,
            [b'l', ..] => Way::Lent,
            _ => Way::Idle,
        }
    }
}

impl fmt::Display for Way {
    fn fmt<W: fmt::Write>(&self, f: &mut fmt::Formatter<W>) -> fmt::Result {
        f.write_str(match self {
            Way::Idle => "idle",
            Way::Week => "week",
            Way::Steps => "steps",
            Way::Lent => "lent",
        })
    }
}

// By the first digit of N.
impl From<&str> for Size {
    fn from(word: &str) -> Size {
        match word.as_bytes() {
            [b'2', ..] => SMALL,
            _ => LARGE,
        }
    }
}

// N and the checksum of the basin reached.
fn print(rt: &impl Print, way: Way, roots: &Roots, size: Size, count: u64) -> io::Result<()> {
    let b = way.reached(roots, size, count);
    println!(rt; "{way} {} {}", size.n, checksum::of_basin(&b))
}

impl Way {
    // Ordinary lines, which all weeks repeat, of the last step of their course, in which it does not freeze.
    fn reached(self, roots: &Roots, size: Size, count: u64) -> Basin {
        let mut chance = Chance::new();
        let plan = Plan::chain(Choice::Ordinary, size.n, size.m);
        let b = calls::started(plan, &mut chance);
        let days = weather::drawn::<64>(31, &mut chance);
        let lines: [Line; 2048] = array::from_fn(|k| days[k % 64]);
        let lines = lines.get(..size.lines).unwrap_or(&lines);
        match self {
            Way::Idle => weeks(b, count, |_| {}),
            Way::Week => weeks(b, count, |b| {
                week::week(b, lines);
            }),
            Way::Steps => weeks(b, count, |b| {
                steps(b, &days, size.steps, |b, here| b.step(here, b.n))
            }),
            Way::Lent => weeks(b, count, |b| {
                steps(b, &days, size.steps, |b, here| {
                    b.step_with(roots, here, b.n)
                })
            }),
        }
    }
}

fn weeks<F: Fn(&mut Basin)>(start: Basin, count: u64, week: F) -> Basin
    requires { F.IsAlwaysCallable week }
{
    let mut b = start;
    for _ in 0..count {
        week(&mut b);
    }
    b
}

fn steps<F: Fn(&mut Basin, [Line; 32]) -> Result<Report, Refused>>(
    b: &mut Basin,
    days: &[Line; 64],
    count: u64,
    step: F,
)
    requires { F.IsAlwaysCallable step }
{
    for j in 0..count {
        let _ = step(b, lines_of(days, j, b.n));
    }
}

// The n lines of step j.
fn lines_of(days: &[Line; 64], j: u64, n: u64) -> [Line; 32] {
    let at = (j.wrapping_mul(n) % 64) as usize;
    array::from_fn(|k| if (k as u64) < n {
        days[(at + k) % 64]
    } else {
        Line::default()
    })
}

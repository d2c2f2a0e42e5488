// How long a root and the search of an ordinate take, for model/bench: a chain, each of an argument that hangs on the answer before, so that
// none can begin early. `curve_speed WAY` takes 100 rounds of 65,536 by one way; without an argument it takes a round by each, which is a test.
#![tactic(auto)]

use common::shares::ONE;
use curve::capacity::{self, Curve, Newton, Printed, Roots};
use std::{env, fmt, io};

// Idle, a root by each way, and searches: of many curves, and of the one point where most trials are needed.
#[derive(Clone, Copy)]
enum Way {
    Idle,
    Newton,
    Lent,
    Made,
    Search,
    Worst,
}

const ROUND: u32 = 65536;

fn main(rt: HostRuntime) -> io::Result<()> {
    let roots = capacity::printed_roots();
    if let Some(word) = env::args(&rt)?.nth(1) {
        return print(&rt, Way::from(word.as_str()), &roots, 100 * ROUND);
    }
    for way in Way::TESTED {
        print(&rt, way, &roots, ROUND)?;
    }
    Ok(())
}

// By its first letter; any other word is idle.
impl From<&str> for Way {
    fn from(word: &str) -> Way {
        match word.as_bytes() {
            [b'n', ..] => Way::Newton,
            [b'l', ..] => Way::Lent,
            [b'm', ..] => Way::Made,
            [b's', ..] => Way::Search,
            [b'w', ..] => Way::Worst,
            _ => Way::Idle,
        }
    }
}

impl fmt::Display for Way {
    fn fmt<W: fmt::Write>(&self, f: &mut fmt::Formatter<W>) -> fmt::Result {
        f.write_str(match self {
            Way::Idle => "idle",
            Way::Newton => "newton",
            Way::Lent => "lent",
            Way::Made => "made",
            Way::Search => "search",
            Way::Worst => "worst",
        })
    }
}

fn print(rt: &impl Print, way: Way, roots: &Roots, count: u32) -> io::Result<()> {
    println!(rt; "{way} {}", way.last(roots, count))
}

impl Way {
    const TESTED: [Way; 5] = [Way::Newton, Way::Lent, Way::Made, Way::Search, Way::Worst];

    // The last answer of a chain.
    fn last(self, roots: &Roots, count: u32) -> u64 {
        match self {
            // Without the last bit turned the compiler would sum the chain up.
            Way::Idle => chain(count, |i, r| argument(i, r) ^ 1),
            Way::Newton => chain(count, |i, r| {
                capacity::root(&Newton, argument(i, r)).unwrap_or(0)
            }),
            Way::Lent => chain(
                count,
                |i, r| capacity::root(roots, argument(i, r)).unwrap_or(0),
            ),
            Way::Made => chain(count, |i, r| {
                capacity::root(&Printed, argument(i, r)).unwrap_or(0)
            }),
            Way::Search => chain(count, |i, r| search(roots, i, r)),
            Way::Worst => chain(count, |_, r| worst(roots, r)),
        }
    }
}

// Each answer by its number and the one before.
fn chain<F: Fn(u32, u64) -> u64>(count: u32, answer: F) -> u64
    requires { F.IsAlwaysCallable answer }
{
    let mut r = 0;
    for i in 0..count {
        r = answer(i, r);
    }
    r
}

// What a root is taken of, which idle takes alone.
fn argument(i: u32, r: u64) -> u64 {
    (u64::from(i) * 40503 + r % ONE) % ONE
}

fn search(roots: &Roots, i: u32, r: u64) -> u64 {
    let i = u64::from(i);
    let c = 100000 + i * 7919 % 400001;
    let m = 150000 + i * 104729 % 1850001;
    let w = (i * 40503 + r % ONE) % c;
    let curve = Curve {
        c,
        m,
        e: 16 + i % 33,
    };
    curve.ordinate(roots, w).unwrap_or(0)
}

// As no ordinate is above 2,000,000, w is always the same.
fn worst(roots: &Roots, r: u64) -> u64 {
    let curve = Curve {
        c: 65536,
        m: 2000000,
        e: 43,
    };
    curve.ordinate(roots, 65535 - r / 2000001 % 2).unwrap_or(0)
}

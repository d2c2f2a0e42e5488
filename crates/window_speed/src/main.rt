// How long an arrival takes, for model/bench: volumes that fall, so that the window is full, that rise, so that it keeps one, and that are
// drawn, into one window for the most steps. `window_speed WAY` goes 100 rounds of 65,536 by one way; without an argument it goes a round
// by each, which is a test.
#![tactic(auto)]

use std::{env, fmt, io};
use testing::chance::Chance;
use testing::checksum::Checksum;
use window::{MOST, Window};

// Idle, and by what the volumes do.
#[derive(Clone, Copy)]
enum Way {
    Idle,
    Falling,
    Rising,
    Random,
}

const ROUND: u64 = 65536;

fn main(rt: HostRuntime) -> io::Result<()> {
    if let Some(word) = env::args(&rt)?.nth(1) {
        return print(&rt, Way::from(word.as_str()), 100 * ROUND);
    }
    for way in [Way::Falling, Way::Rising, Way::Random] {
        print(&rt, way, ROUND)?;
    }
    Ok(())
}

// By its first letters; any other word is idle.
impl From<&str> for Way {
    fn from(word: &str) -> Way {
        match word.as_bytes() {
            [b'f', ..] => Way::Falling,
            [b'r', b'i', ..] => Way::Rising,
            [b'r', b'a', ..] => Way::Random,
            _ => Way::Idle,
        }
    }
}

impl fmt::Display for Way {
    fn fmt<W: fmt::Write>(&self, f: &mut fmt::Formatter<W>) -> fmt::Result {
        f.write_str(match self {
            Way::Idle => "idle",
            Way::Falling => "falling",
            Way::Rising => "rising",
            Way::Random => "random",
        })
    }
}

// The checksum of all answers.
fn print(rt: &impl Print, way: Way, count: u64) -> io::Result<()> {
    println!(rt; "{way} {}", way.taken(count))
}

impl Way {
    // Idle takes the volumes alone.
    fn taken(self, count: u64) -> Checksum {
        let (mut window, _) = Window::make(MOST as u64);
        let mut chance = Chance::new();
        let mut sum = Checksum { h: 1 };
        for i in 0..count {
            let volume = self.volume(i, chance.next());
            sum.add(match self {
                Way::Idle => volume,
                _ => window.arrive(volume).unwrap_or(0),
            });
        }
        sum
    }

    // By its number and a draw.
    fn volume(self, i: u64, x: u64) -> u64 {
        match self {
            Way::Falling => 1000000000000u64.saturating_sub(i),
            Way::Rising => i,
            Way::Idle | Way::Random => x,
        }
    }
}

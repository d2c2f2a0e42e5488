// The weather of a step, drawn.
use crate::chance::one_of;
use common::weather::Weather;
use std::fmt;

#[derive(Clone, Copy)]
pub enum Climate {
    Ordinary,
    Dry,
    Wet,
    Drizzle,
    // Any amounts, of every size.
    Mixed,
    // 32 steps of each of the five, in turn.
    Spells,
    // Ordinary, and below every snow threshold.
    Frost,
}

impl Climate {
    // All but frost alone.
    pub const ALL: [Climate; 6] = [
        Climate::Ordinary,
        Climate::Dry,
        Climate::Wet,
        Climate::Drizzle,
        Climate::Mixed,
        Climate::Spells,
    ];

    // The weather of step i, by three draws.
    pub fn weather(self, i: u64, [x, y, z]: [u64; 3]) -> Weather {
        let here = match self {
            Climate::Spells => Climate::ALL[(i / 32 % 5) as usize],
            climate => climate,
        };
        Weather {
            rain: here.rain(x),
            pan: here.pan(y),
            temperature: here.temperature(i, z),
        }
    }

    fn rain(self, x: u64) -> u64 {
        match self {
            Climate::Ordinary | Climate::Frost => if x % 3 == 0 { x / 3 % 60000 } else { 0 },
            Climate::Dry => 0,
            Climate::Wet => 1000000 - x % 1000,
            Climate::Drizzle => x % 8,
            _ => x % 1000001 >> (x / 1000001 % 20),
        }
    }

    fn pan(self, x: u64) -> u64 {
        match self {
            Climate::Ordinary | Climate::Frost => x % 8000,
            Climate::Dry => 100000,
            Climate::Wet => x % 5000,
            Climate::Drizzle => x % 8,
            _ => x % 100001 >> (x / 100001 % 17),
        }
    }

    // Thousandths of a degree. Ordinary steps go from frost to thaw, 32 in a round; drizzle falls at a snow threshold or beside it.
    fn temperature(self, i: u64, x: u64) -> i64 {
        match self {
            Climate::Ordinary => (i % 32 * 500 + x % 4001) as i64 - 8000,
            Climate::Dry => (20000 + x % 20001) as i64,
            Climate::Wet => (x % 12001) as i64 - 2000,
            Climate::Drizzle => one_of([-1i64, 749, 9999], x).wrapping_add((x / 3 % 3) as i64),
            Climate::Frost => -1 - (x % 80000) as i64,
            _ => (x % 140001) as i64 - 80000,
        }
    }
}

impl fmt::Display for Climate {
    fn fmt<W: fmt::Write>(&self, f: &mut fmt::Formatter<W>) -> fmt::Result {
        f.write_str(match self {
            Climate::Ordinary => "ordinary",
            Climate::Dry => "dry",
            Climate::Wet => "wet",
            Climate::Drizzle => "drizzle",
            Climate::Mixed => "mixed",
            Climate::Spells => "spells",
            Climate::Frost => "frost",
        })
    }
}

// The courses that a list of inflows takes.
use common::shares::ONE;
use curve::store::Store;
use std::cmp::Reverse;
use std::fmt;
use testing::chance::Chance;

#[derive(Clone, Copy)]
pub enum Course {
    One,
    // Of which a share of 1 is just below a half.
    Under,
    Steady,
    None,
    // Below 8, drawn.
    Few,
    // Below 1,000, drawn.
    Small,
    // Of every size, drawn.
    Mixed,
    // Close below the most, 2^62.
    Much,
    // The first of 0..255 at which rounding adds most to the outflow, so that the content sinks.
    Low,
    // The first at which it takes most from it.
    High,
}

impl Course {
    // The next inflow into the store as it stands.
    pub fn inflow(self, store: Store, chance: &mut Chance) -> u64 {
        match self {
            Course::One => 1,
            Course::Under => 32767,
            Course::Steady => 21,
            Course::None => 0,
            Course::Few => chance.next() % 8,
            Course::Small => chance.next() % 1000,
            Course::Mixed => {
                let [x, y] = chance.draws::<2>();
                x >> (y % 31)
            }
            Course::Much => (1 << 62) - chance.next() % 1000,
            Course::Low => (0..256).min_by_key(|i| left(store, *i)).unwrap_or(0),
            Course::High => (0..256)
                .min_by_key(|i| Reverse(left(store, *i)))
                .unwrap_or(0),
        }
    }
}

// What the division by 65,536 leaves of a × i + g × V + 32,768: the less, the more rounding adds. As 65,536 divides 2^64, the sum may wrap.
fn left(store: Store, i: u64) -> u64 {
    let Store { a, g, content } = store;
    let sum = a.wrapping_mul(i).wrapping_add(g.wrapping_mul(content));
    sum.wrapping_add(ONE / 2) % ONE
}

impl fmt::Display for Course {
    fn fmt<W: fmt::Write>(&self, f: &mut fmt::Formatter<W>) -> fmt::Result {
        f.write_str(match self {
            Course::One => "one",
            Course::Under => "under",
            Course::Steady => "steady",
            Course::None => "none",
            Course::Few => "few",
            Course::Small => "small",
            Course::Mixed => "mixed",
            Course::Much => "much",
            Course::Low => "low",
            Course::High => "high",
        })
    }
}

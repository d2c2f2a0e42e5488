// The courses that a series of volumes takes.
use std::fmt;
use testing::chance::Chance;

#[derive(Clone, Copy)]
pub enum Course {
    Rising,
    Falling,
    Equal,
    Zero,
    // Falling, with each volume twice.
    Pairs,
    Saw,
    // Of four numbers, drawn.
    Few,
    Many,
    // Close below the greatest u64.
    Large,
    // 0 or the greatest u64, drawn.
    Ends,
    // Now and then a storm, from which the volume falls by a tenth.
    Storms,
}

impl Course {
    pub const ALL: [Course; 11] = [
        Course::Rising,
        Course::Falling,
        Course::Equal,
        Course::Zero,
        Course::Pairs,
        Course::Saw,
        Course::Few,
        Course::Many,
        Course::Large,
        Course::Ends,
        Course::Storms,
    ];

    // Volume k, where `before` is the one before, and 0 before the first.
    pub fn volume(self, k: u64, before: u64, chance: &mut Chance) -> u64 {
        match self {
            Course::Rising => k.saturating_add(1000),
            Course::Falling => 1000u64.saturating_sub(k),
            Course::Equal => 7,
            Course::Zero => 0,
            Course::Pairs => 1000u64.saturating_sub(k / 2),
            Course::Saw => k.saturating_mul(37) % 101,
            Course::Few => chance.next() % 4,
            Course::Many => chance.next(),
            Course::Large => u64::MAX - chance.next() % 1000,
            Course::Ends => if chance.next() % 2 == 0 { 0 } else { u64::MAX },
            Course::Storms => stormy(before, chance.next()),
        }
    }
}

fn stormy(before: u64, x: u64) -> u64 {
    if x % 20 == 0 {
        1000000 + x % 1000
    } else {
        before.saturating_mul(9) / 10
    }
}

impl fmt::Display for Course {
    fn fmt<W: fmt::Write>(&self, f: &mut fmt::Formatter<W>) -> fmt::Result {
        f.write_str(match self {
            Course::Rising => "rising",
            Course::Falling => "falling",
            Course::Equal => "equal",
            Course::Zero => "zero",
            Course::Pairs => "pairs",
            Course::Saw => "saw",
            Course::Few => "few",
            Course::Many => "many",
            Course::Large => "large",
            Course::Ends => "ends",
            Course::Storms => "storms",
        })
    }
}

// A number chosen within its range.
use crate::case_a;
use crate::ranges::Range;
use std::fmt;
use subbasin::record;

#[derive(Clone, Copy)]
pub enum Choice {
    // Case A of document 01.
    CaseA,
    // What sub-basins have, drawn.
    Ordinary,
    Least,
    Most,
    // Least or most, drawn.
    End,
    // Least, most, a small number or any, drawn.
    Any,
}

impl Choice {
    // All but case A.
    pub const DRAWN: [Choice; 5] = [
        Choice::Ordinary,
        Choice::Least,
        Choice::Most,
        Choice::End,
        Choice::Any,
    ];

    // For the place of a sub-basin's record, by two draws.
    pub fn among(self, place: usize, range: Range, [x, y]: [u64; 2]) -> u64 {
        match self {
            Choice::CaseA => case_a::WORDS[place % record::WORDS],
            Choice::Ordinary => ordinary(place, range.most, x),
            Choice::Least => range.least,
            Choice::Most => range.most,
            Choice::End => if x % 2 == 0 { range.least } else { range.most },
            Choice::Any => any(range, x, y),
        }
    }
}

impl fmt::Display for Choice {
    fn fmt<W: fmt::Write>(&self, f: &mut fmt::Formatter<W>) -> fmt::Result {
        f.write_str(match self {
            Choice::CaseA => "case A",
            Choice::Ordinary => "ordinary",
            Choice::Least => "least",
            Choice::Most => "most",
            Choice::End => "ends",
            Choice::Any => "any",
        })
    }
}

// The starts WU, WL, WD and G go by what limits them.
fn ordinary(place: usize, most: u64, x: u64) -> u64 {
    match place {
        0 => 50 + x % 851,
        1 => 52000 + x % 20001,
        2 => 10000 + x % 10001,
        3 => 60000 + x % 30001,
        4 => 15000 + x % 45001,
        5 => 6000 + x % 7001,
        6 => 18 + x % 5,
        7 => 300 + x % 2701,
        8 => 10000 + x % 40001,
        9 => 20 + x % 9,
        10 | 11 => 15000 + x % 15001,
        12 => 33000 + x % 26001,
        13 => 60000 + x % 5401,
        14 => 6000 + x % 53001,
        15 => x % 7,
        21 => x % 20001,
        22 => x % 200001,
        23 => 2000 + x % 4001,
        24 => x % 2001,
        25 => x % 60001,
        _ => up_to(most, x),
    }
}

fn any(range: Range, x: u64, y: u64) -> u64 {
    let v = match x % 8 {
        0 => range.least,
        1 => range.most,
        2 => y % 20,
        _ => up_to(range.most, y),
    };
    v.max(range.least).min(range.most)
}

// A number from 0 to the most, which is below the greatest u64.
pub fn up_to(most: u64, x: u64) -> u64 {
    x % most.saturating_add(1)
}

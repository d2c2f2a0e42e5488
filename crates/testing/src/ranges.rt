// The ranges of a file's words and of a record's numbers: document 01, "The basin file" and "Who sent it".
use crate::rows::{self, Numbers};
use subbasin::record::{self, Sender, SubBasin};

// The least, the most, and what stands below.
#[derive(Clone, Copy)]
pub struct Range {
    pub below: u64,
    pub least: u64,
    pub most: u64,
}

// A value beside a range or at one of its ends.
#[derive(Clone, Copy)]
pub enum Edge {
    Below,
    Least,
    Most,
    Above,
    // The greatest u64.
    Far,
}

impl Edge {
    pub const ALL: [Edge; 5] = [Edge::Below, Edge::Least, Edge::Most, Edge::Above, Edge::Far];

    // All but the greatest u64.
    pub const NEAR: [Edge; 4] = [Edge::Below, Edge::Least, Edge::Most, Edge::Above];

    pub const OUTSIDE: [Edge; 3] = [Edge::Below, Edge::Above, Edge::Far];
}

// The place of REACH.
pub const REACH: usize = 16;

impl Range {
    // Below 0 stands the greatest u64.
    pub fn between(least: u64, most: u64) -> Range {
        Range {
            below: least.wrapping_sub(1),
            least,
            most,
        }
    }

    pub fn at(self, edge: Edge) -> u64 {
        match edge {
            Edge::Below => self.below,
            Edge::Least => self.least,
            Edge::Most => self.most,
            Edge::Above => self.most.saturating_add(1),
            Edge::Far => u64::MAX,
        }
    }

    // A sub-basin's word by its place and the word that limits it, with REACH up to m.
    pub fn of_word(place: usize, limit: u64, m: u64, sender: Sender) -> Range {
        match place {
            0 => Range::between(1, 5000),
            1 => Range::between(0, 131072),
            2 => Range::between(0, 100000),
            3 => Range::between(1, 200000),
            4 => Range::between(0, 200000),
            5 | 12..=14 => Range::between(0, 65535),
            6 => Range::between(16, 32),
            7 => Range::between(0, 32768),
            8 => Range::between(1, 100000),
            9 => Range::between(16, 48),
            10 => Range::between(0, 65536),
            11 => Range::between(0, rest(limit)),
            15 => Range::between(0, 15),
            16 => Range::between(0, m),
            17..=20 => Range::between(0, limit),
            21 | 22 => Range::between(0, sender.most_slow()), // VI and VG
            23 => Range::between(0, 20000),
            24 => Range::between(0, 10000),
            _ => Range::between(0, sender.most_snow()),
        }
    }

    // A reach's word by its place: c0, c1 by c0, next.
    pub fn of_reach_word(place: usize, c0: u64, m: u64) -> Range {
        match place {
            0 => Range::between(0, 65536),
            1 => Range::between(if c0 == 0 { 1 } else { 0 }, rest(c0)),
            _ => Range::between(0, m),
        }
    }

    pub fn of_n() -> Range {
        Range::between(1, 32)
    }

    pub fn of_m() -> Range {
        Range::between(0, 31)
    }

    // A record's number by its place: an amount in waiting that is not in use is 0.
    pub fn of_number(s: &SubBasin, place: usize, m: u64, sender: Sender) -> Range {
        if place < record::WORDS {
            let limit = Numbers::from(s).at(limiting(place, place));
            return Range::of_word(place, limit, m, sender);
        }
        let used = record::WORDS + (s.line.lag % 16) as usize;
        let most = if place < used {
            1125899906842624 // 2^50
        } else if place < rows::CHANNEL {
            0
        } else {
            72057594037927936 // 2^56
        };
        Range::between(0, most)
    }
}

// The number of the word that limits word number `at`: KI limits KG, and UM, LM, DM and SM the starts.
pub fn limiting(at: usize, place: usize) -> usize {
    let back = match place {
        11 => 1,
        17..=19 => 15,
        20 => 12,
        _ => 0,
    };
    at.saturating_sub(back)
}

fn rest(share: u64) -> u64 {
    65536u64.saturating_sub(share)
}

// A basin as numbers by place: N, M, then each record's numbers, then c0, c1, next and content of each reach.
use basin::reach::Reach;
use basin::state::Basin;
use std::{fmt, io};
use subbasin::record::{self, Sender};
use testing::chance;
use testing::lines::Row;
use testing::ranges::{Edge, Range};
use testing::rows::{self, Numbers};
use testing::spots::Spot;

const REACH_PLACES: usize = 4;

pub const PLACES: usize = 2 + 32 * rows::PLACES + 31 * REACH_PLACES;

pub fn spot_of(place: usize) -> Spot {
    Spot::of(place, 32, rows::PLACES, REACH_PLACES)
}

pub fn numbers_of(r: &Reach) -> [u64; REACH_PLACES] {
    [r.c0, r.c1, r.next, r.content]
}

// A basin in full.
pub fn print(rt: &impl Print, b: &Basin) -> io::Result<()> {
    print!(rt; "basin {} {}", b.n, b.m)?;
    for s in &b.subs {
        print!(rt; "{}", Row(&Numbers::from(s).0))?;
    }
    for r in &b.reaches {
        print!(rt; "{}", Row(&numbers_of(r)))?;
    }
    println!(rt; "")
}

// Puts v at a place.
pub fn put(b: &mut Basin, place: usize, v: u64) {
    match spot_of(place) {
        Spot::N => b.n = v,
        Spot::M => b.m = v,
        Spot::Sub { index, place } => rows::put(&mut b.subs[index % 32], place, v),
        Spot::Reach { index, place } => put_in_reach(&mut b.reaches[index % 31], place, v),
    }
}

fn put_in_reach(r: &mut Reach, place: usize, v: u64) {
    match place {
        0 => r.c0 = v,
        1 => r.c1 = v,
        2 => r.next = v,
        _ => r.content = v,
    }
}

// Puts the edge of its range at a place.
pub fn put_edge(b: &mut Basin, place: usize, edge: Edge) {
    let v = range_of(b, place).at(edge);
    put(b, place, v);
}

// Puts one number below or above its range, or at the greatest, by two draws.
pub fn damage(b: &mut Basin, [x, y]: [u64; 2]) {
    put_edge(b, x as usize % PLACES, chance::one_of(Edge::OUTSIDE, y));
}

// How a basin whose amounts are at their limits lets them go: all at once, by CI, CG and CS of 0, or as slowly as it may.
#[derive(Clone, Copy)]
pub enum Brim {
    AtOnce,
    Slowly,
}

impl Brim {
    pub const ALL: [Brim; 2] = [Brim::AtOnce, Brim::Slowly];

    // VI, VG, SN, amounts in waiting, channel stores and reaches at their limits.
    pub fn fill(self, b: &mut Basin) {
        for place in 0..PLACES {
            if let Some(edge) = self.edge(spot_of(place)) {
                put_edge(b, place, edge);
            }
        }
    }

    fn edge(self, spot: Spot) -> Option<Edge> {
        match spot {
            Spot::Sub { place: 12..=14, .. } => match self {
                Brim::AtOnce => Some(Edge::Least),
                Brim::Slowly => Some(Edge::Most),
            },
            Spot::Sub {
                place: 21 | 22 | 25,
                ..
            } => Some(Edge::Most),
            Spot::Sub { place, .. } if record::WORDS <= place => Some(Edge::Most),
            Spot::Reach { place: 3, .. } => Some(Edge::Most),
            _ => None,
        }
    }
}

impl fmt::Display for Brim {
    fn fmt<W: fmt::Write>(&self, f: &mut fmt::Formatter<W>) -> fmt::Result {
        f.write_str(match self {
            Brim::AtOnce => "at once",
            Brim::Slowly => "brimming",
        })
    }
}

// Document 01, refusal 9. What is unused is 0.
fn range_of(b: &Basin, place: usize) -> Range {
    match spot_of(place) {
        Spot::N => Range::of_n(),
        Spot::M => Range::of_m(),
        Spot::Sub { index, place } if (index as u64) < b.n => {
            Range::of_number(&b.subs[index % 32], place, b.m, Sender::Host)
        }
        Spot::Reach { index, place } if (index as u64) < b.m => reach_range(b, index, place),
        _ => Range::between(0, 0),
    }
}

// Below next stands the reach's own number.
fn reach_range(b: &Basin, index: usize, place: usize) -> Range {
    let own = index as u64 % 31 + 1;
    match place {
        2 => Range {
            below: own,
            least: 0,
            most: if own < b.m { b.m } else { 0 },
        },
        3 => Range::between(0, 72057594037927936), // 2^56
        _ => Range::of_reach_word(place, b.reaches[index % 31].c0, b.m),
    }
}

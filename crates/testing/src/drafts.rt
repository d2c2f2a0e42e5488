// Good basin files: every word chosen within its range, in the file's order, and a network of some shape.
use crate::chance::Chance;
use crate::choices::Choice;
use crate::files::File;
use crate::ranges::Range;
use crate::spots::Spot;
use crate::{choices, ranges};
use std::fmt;

// Every reach flows to the next, to the last, to the one above it in a tree of twos, to any further one, or to one by choice.
#[derive(Clone, Copy, PartialEq, Eq)]
pub enum Shape {
    Chain,
    Star,
    Tree,
    Any,
    Chosen,
}

impl Shape {
    // All but the one by choice.
    pub const OWN: [Shape; 4] = [Shape::Chain, Shape::Star, Shape::Tree, Shape::Any];
}

impl fmt::Display for Shape {
    fn fmt<W: fmt::Write>(&self, f: &mut fmt::Formatter<W>) -> fmt::Result {
        f.write_str(match self {
            Shape::Chain => "chain",
            Shape::Star => "star",
            Shape::Tree => "tree",
            Shape::Any => "any",
            Shape::Chosen => "chosen",
        })
    }
}

// N and M: the most, the least, few of each, and many of one and few of the other.
pub const SIZES: [(u64, u64); 6] = [(32, 31), (7, 5), (1, 0), (2, 1), (32, 0), (1, 31)];

// What a file is to be.
#[derive(Clone, Copy)]
pub struct Plan {
    pub choice: Choice,
    pub shape: Shape,
    pub n: u64,
    pub m: u64,
}

// Its shape, its choice, N and M.
impl fmt::Display for Plan {
    fn fmt<W: fmt::Write>(&self, f: &mut fmt::Formatter<W>) -> fmt::Result {
        write!(f, "{} {} {} {}", self.shape, self.choice, self.n, self.m)
    }
}

impl Plan {
    pub fn new(choice: Choice, shape: Shape, n: u64, m: u64) -> Plan {
        Plan {
            choice,
            shape,
            n,
            m,
        }
    }

    // Every reach flows to the next.
    pub fn chain(choice: Choice, n: u64, m: u64) -> Plan {
        Plan::new(choice, Shape::Chain, n, m)
    }

    // A reach flows on by choice.
    pub fn chosen(choice: Choice, n: u64, m: u64) -> Plan {
        Plan::new(choice, Shape::Chosen, n, m)
    }

    // A good file, drawn.
    pub fn draft(self, chance: &mut Chance) -> File {
        let mut file = File::new(self.n, self.m);
        for at in 2..file.words() {
            let v = self.word(file.spot_of(at), file.range_of(at), chance.draws());
            file.put(at, v);
        }
        file
    }

    fn word(self, spot: Spot, range: Range, draws: [u64; 2]) -> u64 {
        match spot {
            Spot::N => self.n,
            Spot::M => self.m,
            Spot::Sub { index, place } => self.sub_word(own_of(index), place, range, draws),
            Spot::Reach { index, place } => self.reach_word(own_of(index), place, range, draws),
        }
    }

    // Q goes to reach 1 from the first sub-basin, and so on round with the outlet after the last.
    fn sub_word(self, own: u64, place: usize, range: Range, [x, y]: [u64; 2]) -> u64 {
        let ends = self.m % 32 + 1;
        match self.shape {
            Shape::Any if place == ranges::REACH => x % ends,
            Shape::Chain | Shape::Star | Shape::Tree if place == ranges::REACH => own % ends,
            _ => self.choice.among(place, range, [x, y]),
        }
    }

    // c0, c1 and next.
    fn reach_word(self, own: u64, place: usize, range: Range, [x, y]: [u64; 2]) -> u64 {
        match self.choice {
            _ if place == 2 => self.next_of(own, [x, y]),
            Choice::Ordinary if place == 0 => 2000 + x % 18001,
            Choice::Ordinary => choices::up_to(range.most, x),
            choice => choice.among(place, range, [x, y]),
        }
    }

    fn next_of(self, own: u64, [x, y]: [u64; 2]) -> u64 {
        let m = self.m % 32;
        if m <= own {
            return 0;
        }
        match self.shape {
            Shape::Chain => own + 1,
            Shape::Star => m,
            Shape::Tree => m - (m - own - 1) / 2,
            Shape::Any => further(own, x % (m - own + 1)),
            Shape::Chosen => {
                let range = Range::between(0, m - own);
                further(own, self.choice.among(ranges::REACH, range, [x, y]))
            }
        }
    }
}

// The number of a sub-basin or reach, from 1.
fn own_of(index: usize) -> u64 {
    index as u64 % 32 + 1
}

fn further(own: u64, by: u64) -> u64 {
    if by == 0 { 0 } else { own.saturating_add(by) }
}

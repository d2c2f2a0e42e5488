// A reach and its limits: document 01, "The basin file" and 9 of "Who sent it".
ghost use Rattle.std.specs.Prelude.{◌≡◌, ◌<◌, IfSome, unwrap_or};
ghost use Rattle.common.specs.Limits.{first_out};
ghost use Rattle.basin.specs.Reach.{reach_word_count, reach_words, reach_in, is_blank_reach};

use common::shares::ONE;
use curve::store::MOST_CONTENT;

// A reach: the shares c0 and c1 in parts of 65,536, the reach it flows to (0: the outlet) and its content in m³.
#[derive(Clone, Copy, PartialEq, Eq, Default)]
pub struct Reach {
    pub c0: u64,
    pub c1: u64,
    pub next: u64,
    pub content: u64,
}

// How many words a reach has in the file, and their names.
pub const WORDS: usize = 3;

pub const NAMES: [&str; WORDS] = ["c0", "c1", "next"];

impl Reach {
    // The number of its first word outside its range, if there is one; j is the reach's own number, from 1. No list of ranges as the record
    // has: c0 + c1 is judged with c1, and next may be 0 whatever j is.
    pub fn first_outside(&self, j: u64, m: u64) -> Option<usize>
        ensures answers { unwrap_or result reach_word_count ≡ first_out (reach_words m j self.now) }
        ensures one_of_its_words { IfSome result (λ k. k < reach_word_count) }
    {
        if ONE < self.c0 {
            return Some(0);
        }
        if ONE < self.c1 {
            return Some(1);
        }
        let g = self.c0 + self.c1;
        if g < 1 || ONE < g {
            return Some(1);
        }
        if self.next == 0 {
            return None;
        }
        if self.next <= j || m < self.next {
            return Some(2);
        }
        None
    }

    // Whether 9 allows it as reach j of m.
    pub fn allowed(&self, j: u64, m: u64) -> bool
        ensures { result ≡ reach_in m j self.now }
    {
        self.first_outside(j, m).is_none() && self.content <= MOST_CONTENT
    }

    // Whether it is all zeros.
    pub fn is_blank(&self) -> bool
        ensures { result ≡ is_blank_reach self.now }
    {
        *self == Reach::default()
    }
}

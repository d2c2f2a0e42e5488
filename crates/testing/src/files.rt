// A basin file in a buffer of one word more than the longest file has.
ghost use Rattle.std.specs.Prelude.{◌≤◌};

use crate::ranges::{self, Edge, Range};
use crate::spots::Spot;
use common::bytes;
use subbasin::record::{self, Sender};

// The words of a reach.
const REACH_WORDS: usize = 3;

const WORDS: usize = 3 + 32 * record::WORDS + 31 * REACH_WORDS;

pub const BYTES: usize = 4 * WORDS;

// The count of words that N and M ask for.
pub fn words(n: u64, m: u64) -> usize
    ensures { (2 ≤ result) × (result ≤ 4095) }
{
    2 + record::WORDS * (n % 33) as usize + REACH_WORDS * (m % 32) as usize
}

// The file and zeros after it: tests need bytes past its end.
#[derive(Clone, Copy)]
pub struct File {
    pub bytes: [u8; BYTES],
}

impl File {
    // Zeros after N and M.
    pub fn new(n: u64, m: u64) -> File {
        let mut file = File { bytes: [0; BYTES] };
        file.put(0, n);
        file.put(1, m);
        file
    }

    // How many words its N and M ask for.
    pub fn words(&self) -> usize
        ensures { result ≤ 4095 }
    {
        words(self.word(0), self.word(1))
    }

    // At the length that its N and M ask for.
    pub fn as_slice(&self) -> &[u8] {
        self.first(4 * self.words())
    }

    // The first bytes of the buffer, at most all.
    pub fn first(&self, size: usize) -> &[u8] {
        self.bytes.get(..size).unwrap_or(&self.bytes)
    }

    // A word, least byte first.
    pub fn put(&mut self, at: usize, v: u64) {
        let i = at % WORDS * 4;
        let word = (v % 4294967296) as u32;
        self.bytes[i..i + 4].copy_from_slice(&word.to_le_bytes());
    }

    pub fn word(&self, at: usize) -> u64 {
        bytes::word(&self.bytes, at as u64)
    }

    // Where word number `at` stands, by the file's N.
    pub fn spot_of(&self, at: usize) -> Spot {
        let subs = (self.word(0) % 33) as usize;
        Spot::of(at, subs, record::WORDS, REACH_WORDS)
    }

    // The range of word number `at`, by the words before it.
    pub fn range_of(&self, at: usize) -> Range {
        let m = self.word(1);
        match self.spot_of(at) {
            Spot::N => Range::of_n(),
            Spot::M => Range::of_m(),
            Spot::Sub { place, .. } => {
                let limit = self.word(ranges::limiting(at, place));
                Range::of_word(place, limit, m, Sender::Author)
            }
            Spot::Reach { place, .. } => {
                Range::of_reach_word(place, self.word(at.saturating_sub(1)), m)
            }
        }
    }

    // The file with a word at an edge of its range.
    pub fn edged(&self, at: usize, edge: Edge) -> File {
        let mut other = *self;
        other.put(at, self.range_of(at).at(edge));
        other
    }
}

// The basin file: document 01, "The basin file", and refusals 1 to 4 of "Who sent it".
ghost use Rattle.std.specs.Prelude.{◌≡◌, ◌↔◌, ◌≤◌, ◌<◌, ◌+◌, ◌*◌, ℕ, suc, List, length, unwrap_or, IsOk, IfOk, IfSome, refl};
ghost use Rattle.std.proofs.Common.{lit≤};
ghost use Rattle.common.specs.Limits.{Word, first_out};
ghost use Rattle.subbasin.specs.declared.record.Sender.TheVariants.{Author};
ghost use Rattle.subbasin.specs.Record.{word_count, words};
ghost use Rattle.basin.specs.Reach.{reach_word_count, reach_words};
ghost use Rattle.basin.specs.File.{as_loaded, load_call, FileIn, Holds};
ghost use Rattle.basin.specs.Account.{Demand3};
ghost use Rattle.basin.specs.Workers.{sub_stored, reach_stored, ReadOf};

use crate::reach::{self, Reach};
use crate::state::{Basin, MOST_REACHES, MOST_SUBS};
use common::bytes::word;
use common::refusal::{Refusal, Refused};
use subbasin::record::{self, Sender, SubBasin};

// No file has fewer bytes.
const LEAST_BYTES: u64 = 8;

// The basin of a file's bytes. A load checks 1, 2, 3, 4 in this order, accepts every file inside the limits, and then holds its words.
// From an accepted basin every list of steps keeps the water account: demand 3.
pub fn load(bytes: &[u8]) -> Result<Basin, Refused>
    ensures answers { as_loaded result ≡ load_call bytes.now }
    ensures accepts { IsOk result ↔ FileIn bytes.now }
    ensures holds { IfOk result (Holds bytes.now) }
    ensures accounts { Demand3 bytes.now (as_loaded result) }
{
    let size = bytes.len() as u64;
    if size < LEAST_BYTES {
        return Err(Refusal::FewBytes.into());
    }
    let n = word(bytes, 0);
    if n < 1 || MOST_SUBS < n {
        return Err(Refusal::Counts.into());
    }
    let m = word(bytes, 1);
    if MOST_REACHES < m {
        return Err(Refused {
            why: Refusal::Counts,
            place: 1,
        });
    }
    let after_subs = 2 + SubBasin::WORDS * n;
    if size != 4 * (after_subs + Reach::WORDS * m) {
        return Err(Refusal::Length.into());
    }
    let mut subs = [SubBasin::default(); 32];
    read_all(bytes, 2, n, m, &mut subs)?;
    let mut reaches = [Reach::default(); 31];
    read_all(bytes, after_subs, m, m, &mut reaches)?;
    Ok(Basin {
        n,
        m,
        subs,
        reaches,
    })
}

// What stands in the file as so many words: a record, read from its first word on, and its first word outside its range. `number` is its own
// number, from 1.
trait Record: Copy {
    ghost WORDS: { ℕ };

    ghost stored: { List ℕ → ℕ → Self };

    ghost words: { ℕ → ℕ → Self → List Word };

    const WORDS: u64;

    fn read(bytes: &[u8], start: u64) -> Self
        requires { start ≤ 2000 }
        ensures { result ≡ stored bytes.now start };

    fn first_out(&self, number: u64, m: u64) -> Option<usize>
        ensures numbered { unwrap_or result WORDS ≡ first_out (words m number self.now) }
        ensures a_word { IfSome result (λ k. k < WORDS) };

    ghost sized: { (m j : ℕ) (r : Self) → length (words m j r) ≡ WORDS };

    ghost few: { WORDS ≤ word_count };
}

impl Record for SubBasin {
    ghost WORDS = { word_count };

    ghost stored = { sub_stored };

    ghost words = { λ m j s. words m Author s };

    ghost sized = { λ m j s. refl };

    ghost few = { lit≤ tt };

    const WORDS: u64 = record::WORDS as u64;

    fn read(bytes: &[u8], start: u64) -> SubBasin {
        let words: [u64; record::WORDS] = std::array::from_fn(|k| word(bytes, start + k as u64));
        words.into()
    }

    #[tactic(auto, unfolding(subbasin::specs::Record::first_outside))]
    fn first_out(&self, _number: u64, m: u64) -> Option<usize> {
        self.first_outside(m, Sender::Author)
    }
}

// A reach starts empty.
impl Record for Reach {
    ghost WORDS = { reach_word_count };

    ghost stored = { reach_stored };

    ghost words = { λ m j r. reach_words m j r };

    ghost sized = { λ m j r. refl };

    ghost few = { lit≤ tt };

    const WORDS: u64 = reach::WORDS as u64;

    fn read(bytes: &[u8], start: u64) -> Reach {
        Reach {
            c0: word(bytes, start),
            c1: word(bytes, start + 1),
            next: word(bytes, start + 2),
            content: 0,
        }
    }

    fn first_out(&self, number: u64, m: u64) -> Option<usize> {
        self.first_outside(number, m)
    }
}

// Reads n records, one after the other, from word `start` on, up to the first that has a word outside its range.
fn read_all<R: Record>(
    bytes: &[u8],
    start: u64,
    n: u64,
    m: u64,
    records: &mut [R],
) -> Result<(), Refused>
    requires { (n ≤ 32) × (n ≤ length records.old) × (start ≤ 1000) }
    ensures { ReadOf start R.WORDS (λ i. R.stored bytes.now (start + R.WORDS * i)) (λ i. R.words m (suc i) (R.stored bytes.now (start + R.WORDS * i))) n records.old records.new result }
{
    // By index: `(0..n).zip(records)` (tried) lends the records, of which a proof then knows nothing.
    for i in 0..n {
        let at = start + R::WORDS * i;
        let record = R::read(bytes, at);
        if let Some(k) = record.first_out(i + 1, m) {
            return Err(Refused {
                why: Refusal::Word,
                place: at + k as u64,
            });
        }
        records[i as usize] = record;
    }
    Ok(())
}

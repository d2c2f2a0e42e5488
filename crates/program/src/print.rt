// The lines that the program prints: document 01, "What the program prints". A line has at most 129 bytes: six numbers of at most 20
// digits, and 9 besides.
ghost use Rattle.std.specs.Prelude.{◌≡◌, ◌++◌, ◌+◌, ◌≤◌, ◌<◌, ◌^◌, length, OnOk, IfErr};
ghost use Rattle.std.specs.Io.KnownBytes.{Appends};
ghost use Rattle.common.specs.Refusals.{number_of};
ghost use Rattle.program.specs.Print.{load_text, short_text};
ghost use Rattle.program.specs.Workers.{Lines, outcome_text};

use crate::text::{Output, ROOM};
use crate::{Ended, calls, say};
use basin::step::Report;
use common::refusal::Refused;
use std::io;

// Lines that are put together, where they are printed, and where it is said what failed. Whoever is lent one says that `to` is the same
// reference after it (same_reference): without that nothing is known of the writer.
#[derive(Drop)]
pub struct Streams<'a, W: io::Write, E: io::Write> {
    pub to: &'a mut W,
    pub said: &'a mut E,
    pub out: Output,
}

impl<W: io::Write, E: io::Write> Streams<'_, W, E> {
    // Prints the lines of the output, the first of which is line `first`. Where it can't, that is said, and the run ends by it.
    pub fn print(&mut self, first: u64) -> Result<(), Ended>
        requires first_bound { first < 2 ^ 63 }
        requires lines { Lines first self.old.out }
        ensures same_reference { self.new.to.ghost_name ≡ self.old.to.ghost_name }
        ensures out_kept { self.new.out ≡ self.old.out }
        ensures printed { OnOk result (Appends (W.contents self.old.to.now) (W.contents self.new.to.now) self.old.out) }
        ensures failed { IfErr result (λ ended. ended ≡ Ended.Failed) }
    {
        let bytes = self.out.as_bytes();
        match calls::write_full(self.to, bytes) {
            Ok(()) => Ok(()),
            Err(unwritten) => {
                let ended = lines_in(&bytes[..unwritten.count]);
                say::unwritten(self.said, first + ended, unwritten.error);
                Err(Ended::Failed)
            }
        }
    }
}

// How many lines end in bytes.
fn lines_in(bytes: &[u8]) -> u64
    ensures { result ≤ length bytes.now }
{
    bytes.iter().filter(|&&byte| byte == b'\n').count() as u64
}

impl Output {
    // Holds the line of a refused load, and nothing besides.
    #[tactic(auto, using(crate::proofs::print::PrintLaws::load_put))]
    pub fn set_load(&mut self, refused: Refused)
        ensures { self.new ≡ load_text (number_of refused.why) refused.place }
    {
        self.clear();
        self.put_words("load", &[refused.why.number(), refused.place]);
    }

    // Holds the line of a part step of so many bytes, and nothing besides.
    #[tactic(auto, using(crate::proofs::print::PrintLaws::short_put))]
    pub fn set_short(&mut self, count: u64)
        ensures { self.new ≡ short_text count }
    {
        self.clear();
        self.put_words("short", &[count]);
    }

    // Puts the line of step `step`, which came out like this.
    #[tactic(auto, using(crate::proofs::print::PrintLaws::accepted_put, crate::proofs::print::PrintLaws::refused_put))]
    pub fn put_step(&mut self, step: u64, outcome: &Result<Report, Refused>)
        requires { length self.old + 129 ≤ ROOM }
        ensures text { self.new ≡ self.old ++ outcome_text step outcome.now }
        ensures len { length self.new ≤ length self.old + 129 }
    {
        self.put_number(step);
        match outcome {
            Ok(report) => self.put_words(" ok", &report.numbers()),
            Err(refused) => self.put_words(" refused", &[refused.why.number(), refused.place]),
        }
    }
}

// The steps of the forcing file. Each is taken and its line printed when its bytes have come, up to 64 at a time, so that a file of
// any length takes the same room.
ghost use Rattle.std.specs.Prelude.{◌≡◌, ◌+◌, ◌*◌, ◌≤◌, ◌<◌, ◌^◌, length, take, IfOk};
ghost use Rattle.std.specs.Io.KnownBytes.{Appends};
ghost use Rattle.program.specs.Print.{step_bytes, part_text};
ghost use Rattle.program.specs.Ended.{Ends, ended_in};
ghost use Rattle.program.specs.Workers.{RunOf, Stepped};

use crate::print::Streams;
use crate::text::Output;
use crate::{Ended, calls, say};
use basin::state::Basin;
use curve::capacity;
use forcing::file;
use std::io;

// The most steps that are taken at a time.
const STEPS: usize = 64;

// More reads than a run has time for.
const READS: u64 = 1 << 55;

// Takes the steps that are read to their end and prints their lines; an Err is how that ends too soon. What was printed last is left in
// the output. Here and in take_steps n is asked to be from 1 to 32: a number alone, of which a type would be no plainer.
pub fn run<R: io::Read, W: io::Write, E: io::Write>(
    from: &mut R,
    streams: &mut Streams<'_, W, E>,
    basin: &mut Basin,
) -> Result<(), Ended>
    requires { (1 ≤ basin.old.n) × (basin.old.n ≤ 32) }
    ensures same_reference { streams.new.to.ghost_name ≡ streams.old.to.ghost_name }
    ensures run { RunOf basin.old (ended_in result) basin.new streams.new.out
        (W.contents streams.old.to.now) (W.contents streams.new.to.now) }
{
    let n = basin.n;
    let size = (file::LINE_BYTES * n) as usize;
    let whole = STEPS * size;
    // A buffer, the first `kept` bytes of which are filled: a read goes into its free part, and an ArrayVec lends none.
    let mut input = [0u8; 32768];
    let mut kept = 0;
    let mut done: u64 = 0;
    for _ in 0..READS {
        let count = match read_after(from, &mut input, kept, whole) {
            Ok(0) => break,
            Ok(count) => count,
            Err(error) => {
                say::unread(streams.said, done, error);
                return Err(Ended::Failed);
            }
        };
        let end = kept + count;
        let first = done + 1;
        let steps = take_steps(&input[..end], &mut streams.out, basin, n, done);
        done += steps;
        let used = steps as usize * size;
        input.copy_within(used..end, 0);
        kept = end - used;
        streams.print(first)?;
    }
    end_run(streams, done, kept, size)
}

// Leaves the line of a part step of size bytes in the output, where some of it has come, and prints it: the run then ends too soon.
#[tactic(auto, using(crate::proofs::print::PrintLaws::no_part, crate::proofs::print::PrintLaws::some_part, crate::proofs::print::PrintLaws::nothing_printed))]
fn end_run<W: io::Write, E: io::Write>(
    streams: &mut Streams<'_, W, E>,
    done: u64,
    kept: usize,
    size: usize,
) -> Result<(), Ended>
    requires { done < 2 ^ 62 }
    ensures same_reference { streams.new.to.ghost_name ≡ streams.old.to.ghost_name }
    ensures ends { Ends kept (ended_in result) }
    ensures part_put { streams.new.out ≡ part_text kept }
    ensures printed { (ended_in result ≡ Ended.Failed → ⊥)
        → Appends (W.contents streams.old.to.now) (W.contents streams.new.to.now) (part_text kept) }
{
    if kept == 0 {
        streams.out.clear();
        return Ok(());
    }
    streams.out.set_short(kept as u64);
    let printed = streams.print(done + 1);
    say::short(streams.said, kept as u64, size as u64, done + 1);
    printed?;
    Err(Ended::NotAll)
}

// Takes the whole steps of bytes, puts their lines into the output in place of what is there, and answers how many steps these are.
// Before them `done` steps were taken.
fn take_steps(bytes: &[u8], out: &mut Output, basin: &mut Basin, n: u64, done: u64) -> u64
    requires { (1 ≤ n) × (n ≤ 32) × (length bytes.now ≤ 64 * step_bytes n) × (done < 2 ^ 62) }
    ensures { Stepped basin.old n done bytes.now basin.new result out.new }
{
    let size = (file::LINE_BYTES * n) as usize;
    let roots = capacity::printed_roots();
    out.clear();
    for (k, words) in bytes.chunks_exact(size).enumerate() {
        let outcome = basin.step_with(&roots, file::lines_of(words, n), n);
        out.put_step(done + k as u64 + 1, &outcome);
    }
    (bytes.len() / size) as u64
}

// Reads what is there, from index `from` up to index `to`; what lies before stays.
fn read_after<R: io::Read>(
    source: &mut R,
    input: &mut [u8],
    from: usize,
    to: usize,
) -> io::Result<usize>
    requires { (from ≤ to) × (to ≤ length input.old) }
    ensures count_bound { IfOk result (λ count. from + count ≤ to) }
    ensures input_unchanged { take from input.new ≡ take from input.old }
{
    calls::read_some(source, &mut input[from..to])
}

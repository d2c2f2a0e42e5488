// Files chosen by number: lengths, N and M, every word at the edges of its range, and reaches.
use crate::loads::load;
use std::io;
use testing::chance::Chance;
use testing::checksum::Checksum;
use testing::choices::Choice;
use testing::drafts::Plan;
use testing::files::{self, BYTES};
use testing::lines::Row;
use testing::ranges::Edge;

// Good files of every N and M, and each a byte and a word too short and too long.
pub fn every_size(rt: &impl Print, choice: Choice) -> io::Result<()> {
    let mut chance = Chance::new();
    let mut sum = Checksum::default();
    for n in 1..33 {
        for m in 0..32 {
            let file = Plan::chosen(choice, n, m).draft(&mut chance);
            let own = 4 * files::words(n, m);
            for size in [own, own - 4, own - 1, own + 1, own + 4] {
                load(&mut sum, file.first(size));
            }
        }
        println!(rt; "good {n} {sum}")?;
    }
    println!(rt; "{choice} 1 0 {sum}")
}

// The file cut to every length up to five bytes past its own, and in the buffer. Lengths up to 9, and those near the file's own, are
// printed.
pub fn sizes(rt: &impl Print, plan: Plan) -> io::Result<()> {
    let file = plan.draft(&mut Chance::new());
    let own = 4 * file.words();
    let mut sum = Checksum::default();
    for size in 0..=BYTES.min(own + 5) {
        let told = load(&mut sum, file.first(size));
        if size < 10 || own <= size + 5 {
            println!(rt; "size {size}{}", Row(&told))?;
        }
    }
    println!(rt; "sizes {} {} {sum}", plan.n, plan.m)
}

// N and M: both ends of their ranges and one beyond, and the same in the other bytes of the word.
const COUNTS: [u64; 12] = [
    0, 1, 2, 31, 32, 33, 256, 8192, 65536, 16777216, 536870912, 4294967295,
];

// N with M, at the length that they ask for, or at the longest, and at 8 bytes.
pub fn counts(rt: &impl Print) -> io::Result<()> {
    let base = Plan::chosen(Choice::Any, 32, 31).draft(&mut Chance::new());
    let mut sum = Checksum::default();
    for m in COUNTS {
        for n in COUNTS {
            let mut file = base;
            file.put(0, n);
            file.put(1, m);
            let whole = load(&mut sum, file.first(size_of(n, m)));
            let short = load(&mut sum, file.first(8));
            println!(rt; "counts {n} {m}{}{}", Row(&whole), Row(&short))?;
        }
    }
    println!(rt; "counts 32 31 {sum}")
}

fn size_of(n: u64, m: u64) -> usize {
    if n <= 32 && m <= 31 {
        4 * files::words(n, m)
    } else {
        4 * files::words(32, 31)
    }
}

// Every word below, at the ends of and above its range, and what becomes of each word's five answers.
pub fn words<F: Fn(usize, &[[u64; 2]; 5]) -> io::Result<()>>(
    rt: &impl Print,
    plan: Plan,
    tell: F,
) -> io::Result<()>
    requires { F.IsAlwaysCallable tell }
{
    let file = plan.draft(&mut Chance::new());
    let words = file.words();
    let mut sum = Checksum::default();
    for at in 0..words {
        let told = Edge::ALL.map(|edge| load(&mut sum, file.edged(at, edge).first(4 * words)));
        tell(at, &told)?;
    }
    println!(rt; "words {} {} {sum}", plan.n, plan.m)
}

// A line of its own.
pub fn line(rt: &impl Print, at: usize, told: &[[u64; 2]; 5]) -> io::Result<()> {
    println!(rt; "word {at}{}", Row(told.as_flattened()))
}

// c0 and c1: both ends of their ranges and one beyond, and what would wrap.
const SHARES: [u64; 10] = [
    0, 1, 2, 32768, 65535, 65536, 65537, 2147483648, 4294901760, 4294967295,
];

// c0 with c1, in the second reach of two sub-basins and three reaches.
pub fn shares(rt: &impl Print) -> io::Result<()> {
    let base = Plan::chosen(Choice::Any, 2, 3).draft(&mut Chance::new());
    let at = files::words(2, 1);
    let mut sum = Checksum::default();
    for c1 in SHARES {
        for c0 in SHARES {
            let mut file = base;
            file.put(at, c0);
            file.put(at + 1, c1);
            let told = load(&mut sum, file.as_slice());
            println!(rt; "shares {c0} {c1}{}", Row(&told))?;
        }
    }
    println!(rt; "shares 2 3 {sum}")
}

// Every reach with every next, in one sub-basin and 31 reaches. A line a reach: its own number, then the answers for next 0 to 32.
pub fn nexts(rt: &impl Print) -> io::Result<()> {
    let base = Plan::chosen(Choice::Any, 1, 31).draft(&mut Chance::new());
    let mut sum = Checksum::default();
    for own in 1..32 {
        print!(rt; "next {own}")?;
        for next in 0..33 {
            let mut file = base;
            file.put(files::words(1, own) - 1, next);
            let told = load(&mut sum, file.as_slice());
            print!(rt; "{}", Row(&told))?;
        }
        println!(rt; "")?;
    }
    println!(rt; "nexts 1 31 {sum}")
}

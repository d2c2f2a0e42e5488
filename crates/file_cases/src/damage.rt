// Good files, damaged at random.
use crate::loads::load;
use std::{array, io};
use testing::chance::{self, Chance};
use testing::checksum::Checksum;
use testing::choices::Choice;
use testing::drafts::Plan;
use testing::files::{BYTES, File};
use testing::lines::Row;
use testing::ranges::Edge;

// A good file with N and M drawn too.
fn drawn(chance: &mut Chance) -> File {
    let [n, m] = chance.draws::<2>();
    Plan::chosen(Choice::Any, 1 + n % 32, m % 32).draft(chance)
}

// Three words outside their ranges, drawn.
pub fn several(rt: &impl Print) -> io::Result<()> {
    let mut chance = Chance::new();
    let mut sum = Checksum::default();
    for i in 0..2000 {
        let mut file = drawn(&mut chance);
        let places: [u64; 3] = array::from_fn(|_| outside(&mut file, &mut chance));
        let told = load(&mut sum, file.as_slice());
        if i % 50 == 0 {
            println!(rt; "several{}{}", Row(&places), Row(&told))?;
        }
    }
    println!(rt; "several 1 0 {sum}")
}

// Puts a word after the first two below or above its range, or the greatest; hands back its place.
fn outside(file: &mut File, chance: &mut Chance) -> u64 {
    let [x, y] = chance.draws::<2>();
    let more = file.words().saturating_sub(2).max(1);
    let at = 2 + x as usize % more % BYTES;
    *file = file.edged(at, chance::one_of(Edge::OUTSIDE, y));
    at as u64
}

// One byte changed, or the one past the file, drawn.
pub fn bytes(rt: &impl Print) -> io::Result<()> {
    let mut chance = Chance::new();
    let mut sum = Checksum::default();
    for i in 0..5000 {
        let mut file = drawn(&mut chance);
        let [x, y] = chance.draws::<2>();
        let size = 4 * file.words();
        let at = x as usize % (size + 1);
        let v = (y % 256) as u8;
        if let Some(byte) = file.bytes.get_mut(at) {
            *byte = v;
        }
        let told = load(&mut sum, file.first(size));
        if i % 200 == 0 {
            println!(rt; "byte {at} {v}{}", Row(&told))?;
        }
    }
    println!(rt; "bytes 1 0 {sum}")
}

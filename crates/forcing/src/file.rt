// The lines of the forcing file: document 01, "What the program prints", and document 02, No. 8.
ghost use Rattle.std.specs.Prelude.{◌≡◌, ◌<◌};
ghost use Rattle.forcing.specs.File.{reading_of, line_of, file_line, lines_of};

use crate::list::{Line, Reading};
use common::bytes;
use std::num::f32_from_bits_with_nan;

// Four words a line.
const LINE_WORDS: u64 = 4;

pub const LINE_BYTES: u64 = 4 * LINE_WORDS;

// The n lines of a step's bytes, at most 32; bytes past the end count as 0.
pub fn lines_of(bytes: &[u8], n: u64) -> [Line; 32]
    ensures { result ≡ lines_of bytes.now n }
{
    let none = Line::default(); // here, as of one made in the closure a proof knows nothing
    std::array::from_fn(|k| if (k as u64) < n {
        file_line(bytes, k)
    } else {
        none
    })
}

// Line k, counted from 0.
#[tactic(auto, unfolding(crate::specs::File::file_line))]
fn file_line(bytes: &[u8], k: usize) -> Line
    requires { k < 32 }
    ensures { result ≡ file_line bytes.now k }
{
    let first = LINE_WORDS * k as u64;
    let kind = bytes::word(bytes, first) as u32;
    let rain = bytes::word(bytes, first + 1) as u32;
    let pan = bytes::word(bytes, first + 2) as u32;
    let temperature = bytes::word(bytes, first + 3) as u32;
    line_of(kind, rain, pan, temperature)
}

// The line of four words: kind, rain bits, pan bits, temperature bits, as the definition names it. from_bits takes no NaN's pattern.
#[tactic(auto, unfolding(crate::specs::File::line_of))]
pub fn line_of(kind: u32, rain: u32, pan: u32, temperature: u32) -> Line
    ensures { result ≡ line_of kind rain pan temperature }
{
    Line {
        rain: reading_of(kind, f32_from_bits_with_nan(rain)),
        pan: f32_from_bits_with_nan(pan),
        temperature: f32_from_bits_with_nan(temperature),
    }
}

// Kinds are numbers in the file: document 01.
fn reading_of(kind: u32, rain: f32) -> Reading
    ensures { result ≡ reading_of kind rain }
{
    match kind {
        1 => Reading::Measured(rain),
        2 => Reading::Estimated(rain),
        _ => Reading::Missing,
    }
}

// The words of a file: document 01, "The basin file".
ghost use Rattle.std.specs.Prelude.{◌≡◌, ◌^◌, ◌<◌};
ghost use Rattle.common.specs.Bytes.{word_at};

use std::array;

// Word i, counted from 0, least byte first; a byte past the end counts as 0. A u64, as all numbers of the records are.
pub fn word(bytes: &[u8], i: u64) -> u64
    ensures { (result ≡ word_at bytes.now i) × (result < 2 ^ 32) }
{
    if bytes.len() as u64 / 4 < i {
        return 0;
    }
    let at = (4 * i) as usize;
    let word: [u8; 4] = array::from_fn(|k| bytes.get(at + k).copied().unwrap_or(0));
    u64::from(u32::from_le_bytes(word))
}

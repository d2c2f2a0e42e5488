// The sub-basin of case A: document 01, "What the program prints".
use subbasin::record;

pub const WORDS: [u64; record::WORDS] = [
    1, 65536, 20000, 60000, 40000, 8192, 24, 0, 20000, 24, 16384, 16384, 32768, 32768, 0, 0, 0, 0,
    0, 0, 0, 0, 0, 0, 0, 0,
];

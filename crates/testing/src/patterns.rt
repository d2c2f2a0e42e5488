// Single-precision patterns of every class that a reading can have.

// No number, signalling and then quiet, each with the first and the last payload and either sign; the infinities; the greatest number, the
// least and the first below zero; minus zero, the first above zero, and 1.
pub const PATTERNS: [u32; 16] = [
    0x7f80_0001,
    0x7fbf_ffff,
    0x7fc0_0000,
    0x7fff_ffff,
    0xff80_0001,
    0xffbf_ffff,
    0xffc0_0000,
    0xffff_ffff,
    0x7f80_0000,
    0xff80_0000,
    0x7f7f_ffff,
    0xff7f_ffff,
    0x8000_0001,
    0x8000_0000,
    0x0000_0001,
    0x3f80_0000,
];

// Of a temperature: each limit and the numbers beside it; each limit with the other sign; the halves next to zero, and the numbers beside that
// below zero; the last subnormal numbers; a warm and a cold day.
pub const TEMPERATURES: [u32; 16] = [
    0x426f_ffff,
    0x4270_0000,
    0x4270_0001,
    0xc29f_ffff,
    0xc2a0_0000,
    0xc2a0_0001,
    0xc270_0000,
    0x42a0_0000,
    0x3d80_0000,
    0xbd7f_ffff,
    0xbd80_0000,
    0xbd80_0001,
    0x007f_ffff,
    0x807f_ffff,
    0x41c8_0000,
    0xc0d0_0000,
];

// Single-precision numbers by their 32 bits, drawn or chosen.

// What stands before a number from zero up, and below zero.
pub const SIGNS: [u32; 2] = [0, 0x8000_0000];

// The limits of a temperature, 60 and -80 degrees.
pub const HOTTEST: u32 = 0x4270_0000;

pub const COLDEST: u32 = 0xc2a0_0000;

// Any pattern.
pub fn any([x, y]: [u64; 2]) -> u32 {
    (x % 65536 * 65536 + y % 65536) as u32
}

// Exponents 100..137: from far below 1 µm to above both limits.
pub fn near([x, y]: [u64; 2]) -> u32 {
    ((100 + x % 38) * 8388608 + y % 8388608) as u32
}

// Exponents 112..133 and either sign: from far below a thousandth of a degree to above both limits.
pub fn near_degrees([x, y]: [u64; 2]) -> u32 {
    (x / 22 % 2 * 2147483648 + (112 + x % 22) * 8388608 + y % 8388608) as u32
}

// Inside the limits, and 2^-15 of a degree at least from zero, on either side.
pub fn degrees([x, y]: [u64; 2]) -> u32 {
    let pattern = if x % 2 == 0 {
        0x3800_0000 + y % 175112193
    } else {
        0xb800_0000 + y % 178257921
    };
    pattern as u32
}

// One pattern below, the pattern itself and one above; they go round.
pub fn around(pattern: u32) -> [u32; 3] {
    [pattern.wrapping_sub(1), pattern, pattern.wrapping_add(1)]
}

// Around k + 0.5 µm: in the middle stands the greatest number at most that depth.
pub fn around_half(k: u64) -> [u32; 3] {
    around(at_most(2 * (k % 1048576) + 1))
}

// The pattern of the greatest number at most n / 2,000 mm, n from 1 to 2^21 - 1: its 24 digits are the first of n / 2,000 in parts
// of 2^35, of which there are at least 2^24.
fn at_most(n: u64) -> u32 {
    let parts = (n % 2097152 << 35) / 2000;
    let zeros = u64::from(parts.leading_zeros());
    if 40 < zeros {
        return 0;
    }
    ((154 - zeros) * 8388608 + (parts >> (40 - zeros)) % 16777216) as u32
}

// The pattern of k / 16, k below 2^16: zero, or an exponent and the digits of k after its first.
pub fn sixteenths(k: u64) -> u32 {
    let zeros = u64::from((k % 65536).leading_zeros());
    if 63 < zeros {
        return 0;
    }
    ((186 - zeros) * 8388608 + (k % 65536 << 23 >> (63 - zeros)) % 8388608) as u32
}

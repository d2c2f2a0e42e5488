// The generator: x := x × 48,271 mod 2,147,483,647.
ghost use Rattle.std.specs.Prelude.{◌<◌};

use std::array;

#[derive(Clone, Copy)]
pub struct Chance {
    pub x: u64,
}

impl Chance {
    // Where a series begins that goes on from no other.
    pub fn new() -> Chance {
        Chance { x: 1 }
    }

    pub fn next(&mut self) -> u64 {
        self.x = self.x % 2147483647 * 48271 % 2147483647;
        self.x
    }

    // The next N numbers, in order.
    pub fn draws<const N: usize>(&mut self) -> [u64; N] {
        array::from_fn(|_| self.next())
    }
}

// One of several, by a draw.
pub fn one_of<T: Copy, const N: usize>(several: [T; N], x: u64) -> T
    requires { 0 < N }
{
    several[(x % N as u64) as usize]
}

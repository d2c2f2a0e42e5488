// Every list of one to six volumes out of 0, 1 and 2 into small windows: for each n a checksum of the last answers and windows.
use crate::told;
use std::io;
use testing::checksum::Checksum;
use window::Window;

// How many digits a list does not use, and how many lists there are.
const LENGTHS: [(usize, u64); 6] = [(5, 3), (4, 9), (3, 27), (2, 81), (1, 243), (0, 729)];

pub fn rows(rt: &impl Print) -> io::Result<()> {
    for n in 1..5 {
        let mut sum = Checksum::default();
        for (unused, lists) in LENGTHS {
            for number in 0..lists {
                add(&mut sum, n, number, unused);
            }
        }
        println!(rt; "lists {n} {sum}")?;
    }
    Ok(())
}

// The list with this number, whose volumes are its last digits.
fn add(sum: &mut Checksum, n: u64, number: u64, unused: usize) {
    let (mut window, mut given) = Window::make(n);
    for volume in digits(number).iter().skip(unused) {
        given = window.arrive(*volume);
    }
    told::add(sum, given, &window);
}

// To base 3, the most significant first.
pub fn digits(number: u64) -> [u64; 6] {
    [
        number / 243 % 3,
        number / 81 % 3,
        number / 27 % 3,
        number / 9 % 3,
        number / 3 % 3,
        number % 3,
    ]
}

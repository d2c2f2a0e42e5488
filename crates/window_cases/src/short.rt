// A short list with equal volumes, greater ones and zeros, into small windows.
use crate::told;
use std::io;

const VOLUMES: [u64; 12] = [4, 4, 2, 5, 1, 1, 3, 0, 0, 0, 0, 7];

pub fn rows(rt: &impl Print) -> io::Result<()> {
    for n in 1..4 {
        let mut window = told::make(rt, n)?;
        for volume in VOLUMES {
            told::arrive(rt, &mut window, volume)?;
        }
    }
    Ok(())
}

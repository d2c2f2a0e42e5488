// Arrivals into windows that may be bad: how many were accepted and refused, and the checksum of answers and windows.
use crate::told;
use std::fmt;
use testing::checksum::Checksum;
use window::Window;

#[derive(Clone, Copy, Default)]
pub struct Tally {
    accepted: u64,
    refused: u64,
    sum: Checksum,
}

impl Tally {
    // A volume into a copy of the window.
    pub fn arrive(&mut self, window: &Window, volume: u64) {
        let mut after = *window;
        let given = after.arrive(volume);
        match given {
            Ok(_) => self.accepted = self.accepted.wrapping_add(1),
            Err(_) => self.refused = self.refused.wrapping_add(1),
        }
        told::add(&mut self.sum, given, &after);
    }
}

impl fmt::Display for Tally {
    fn fmt<W: fmt::Write>(&self, f: &mut fmt::Formatter<W>) -> fmt::Result {
        write!(f, "{} {} {}", self.accepted, self.refused, self.sum)
    }
}

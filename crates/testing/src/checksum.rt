// The checksum h over numbers v: h := (h × 65,599 + v mod 4,294,967,291) mod 4,294,967,291.
use crate::rows::Numbers;
use std::fmt;
use subbasin::record::SubBasin;

#[derive(Clone, Copy, PartialEq, Eq, Default)]
pub struct Checksum {
    pub h: u64,
}

impl Checksum {
    pub fn add(&mut self, v: u64) {
        self.h = (self.h % 4294967291 * 65599 + v % 4294967291) % 4294967291;
    }

    pub fn add_row(&mut self, row: &[u64]) {
        for v in row {
            self.add(*v);
        }
    }

    // A record's words, its amounts in waiting and its channel store.
    pub fn add_record(&mut self, s: &SubBasin) {
        self.add_row(&Numbers::from(s).0);
    }
}

impl fmt::Display for Checksum {
    fn fmt<W: fmt::Write>(&self, f: &mut fmt::Formatter<W>) -> fmt::Result {
        write!(f, "{}", self.h)
    }
}

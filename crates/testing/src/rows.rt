// A sub-basin's record as numbers by place: the basin file's words, the 15 amounts in waiting, the channel store.
use subbasin::record::{self, SubBasin};

// The place of the channel store, the last.
pub const CHANNEL: usize = record::WORDS + 15;

pub const PLACES: usize = record::WORDS + 16;

#[derive(Clone, Copy)]
pub struct Numbers(pub [u64; PLACES]);

impl Numbers {
    // At a place; past the last place stands the channel store too.
    pub fn at(&self, place: usize) -> u64 {
        self.0[place.min(CHANNEL)]
    }

    pub fn put(&mut self, place: usize, v: u64) {
        self.0[place.min(CHANNEL)] = v;
    }
}

impl From<&SubBasin> for Numbers {
    fn from(s: &SubBasin) -> Numbers {
        let mut numbers = [s.channel; PLACES];
        numbers[..record::WORDS].copy_from_slice(&s.words());
        numbers[record::WORDS..CHANNEL].copy_from_slice(&s.line.waiting);
        Numbers(numbers)
    }
}

impl From<Numbers> for SubBasin {
    fn from(numbers: Numbers) -> SubBasin {
        let mut words = [0; record::WORDS];
        words.copy_from_slice(&numbers.0[..record::WORDS]);
        let mut s = SubBasin::from(words);
        s.line
            .waiting
            .copy_from_slice(&numbers.0[record::WORDS..CHANNEL]);
        s.channel = numbers.0[CHANNEL];
        s
    }
}

pub fn at(s: &SubBasin, place: usize) -> u64 {
    Numbers::from(s).at(place)
}

// The record with v at a place.
pub fn put(s: &mut SubBasin, place: usize, v: u64) {
    let mut numbers = Numbers::from(&*s);
    numbers.put(place, v);
    *s = SubBasin::from(numbers);
}

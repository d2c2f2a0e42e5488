// The numbers of a window's record.
use window::{MOST, Window};

#[derive(Clone, Copy)]
pub enum Number {
    N,
    Count,
    // Of a place.
    Volume(usize),
    Age(usize),
}

impl Number {
    pub fn at(self, window: &Window) -> u64 {
        match self {
            Number::N => window.n,
            Number::Count => window.count as u64,
            Number::Volume(place) => window.kept[place % MOST].volume,
            Number::Age(place) => window.kept[place % MOST].age,
        }
    }

    // The window with v in its place.
    pub fn put(self, window: &Window, v: u64) -> Window {
        let mut other = *window;
        match self {
            Number::N => other.n = v,
            Number::Count => other.count = v as usize,
            Number::Volume(place) => other.kept[place % MOST].volume = v,
            Number::Age(place) => other.kept[place % MOST].age = v,
        }
        other
    }

    // The same number of the place before and of the next place, where there are such.
    pub fn beside(self) -> [Option<Number>; 2] {
        match self {
            Number::N | Number::Count => [None; 2],
            Number::Volume(place) => places_beside(place).map(|place| place.map(Number::Volume)),
            Number::Age(place) => places_beside(place).map(|place| place.map(Number::Age)),
        }
    }
}

fn places_beside(place: usize) -> [Option<usize>; 2] {
    let next = if place < MOST - 1 {
        Some(place + 1)
    } else {
        None
    };
    [place.checked_sub(1), next]
}

// Numbers put at the places of a record, in order and within their ranges.
use crate::calls::record_range;
use std::ops::Range;
use subbasin::record::{Sender, SubBasin};
use testing::chance::Chance;
use testing::choices::Choice;
use testing::rows;

// The places by choice, within the ranges of a basin file.
pub fn choose(s: &mut SubBasin, choice: Choice, places: Range<usize>, chance: &mut Chance) {
    for place in places {
        let range = record_range(s, place, Sender::Author);
        let v = choice.among(place, range, chance.draws());
        rows::put(s, place, v);
    }
}

// The most that a record may have, at every place.
pub fn brim(s: &mut SubBasin) {
    for place in 0..rows::PLACES {
        let most = record_range(s, place, Sender::Host).most;
        rows::put(s, place, most);
    }
}

// What stands there lowered to the most: a start at most its capacity, KG at most what KI leaves, nothing in waiting past the lag.
pub fn fit(s: &mut SubBasin) {
    for place in 0..rows::CHANNEL {
        let most = record_range(s, place, Sender::Author).most;
        let v = rows::at(s, place).min(most);
        rows::put(s, place, v);
    }
}

// The record with the places by choice, the others fitted to them.
pub fn replaced(record: SubBasin, choice: Choice, places: Range<usize>) -> SubBasin {
    let mut s = record;
    choose(&mut s, choice, places, &mut Chance::new());
    fit(&mut s);
    s
}

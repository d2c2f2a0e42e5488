// Answers as numbers: a refusal's number and place, which are 0 where there is none.
use common::refusal::{Refusal, Refused};

pub fn numbers(refused: Refused) -> [u64; 2] {
    [refused.why.number(), refused.place]
}

pub fn told<T: Copy, E: Copy + Into<Refused>>(given: &Result<T, E>) -> [u64; 2] {
    match *given {
        Ok(_) => [0, 0],
        Err(refused) => numbers(refused.into()),
    }
}

// And the value, which is 0 where there is none.
pub fn with_value(given: Result<u64, Refusal>) -> [u64; 3] {
    let [number, place] = told(&given);
    [number, place, given.unwrap_or(0)]
}

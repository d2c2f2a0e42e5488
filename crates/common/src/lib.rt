// What every crate rests on: shares, amounts, the words of a byte slice, the weather of one line, and why a call is refused.
#![tactic(auto)]

pub mod amounts;
pub mod bytes;
pub mod refusal;
pub mod shares;
pub mod weather;

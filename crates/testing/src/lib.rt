// What the test programs share: the checksum, the printed lines, the generator, records and files as numbers, their ranges, the patterns of
// readings, and an answer's number and place.
#![tactic(auto)]

pub mod case_a;
pub mod chance;
pub mod checksum;
pub mod choices;
pub mod climate;
pub mod drafts;
pub mod files;
pub mod lines;
pub mod patterns;
pub mod ranges;
pub mod refusals;
pub mod rows;
pub mod spots;

// What the test programs of `basin` share: loaded basins, a basin's numbers by place and its checksum, and drawn lines.
#![tactic(auto)]

pub mod calls;
pub mod checksum;
pub mod places;
pub mod weather;

// The basin: its file, its network of reaches and one step of it: document 01, sections "The basin file", "The store law" and
// "Who sent it".
#![tactic(auto)]

pub mod file;
mod limits;
mod network;
pub mod reach;
pub mod state;
pub mod step;
pub mod week;

// The forcing list: document 01, "The forcing list", with the gauge readers and the depth call of "Who sent it", and the lines of the
// forcing file; document 02, Nos. 7 and 8.
#![tactic(auto)]

pub mod depth;
pub mod file;
pub mod list;
pub mod temperature;

// One sub-basin, one step, and which rain would do: document 01, sections "One sub-basin, one step", "The store law" and "The basin
// file"; document 02, Nos. 3, 5 and 8.
#![tactic(auto)]

pub mod content;
mod free_water;
mod ground;
mod lag;
pub mod record;
mod slices;
mod snow;
mod soil;
pub mod step;
mod walk;
pub mod yields;

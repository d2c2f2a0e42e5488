// The basin: document 01's opening section and 9 of "Who sent it".
ghost use Rattle.std.specs.Prelude.{◌≡◌, true};
ghost use Rattle.basin.specs.Limits.{basin_in, Unused};

use crate::reach::Reach;
use subbasin::record::SubBasin;

// N sub-basins and M reaches, in fixed arrays, as there is no heap; the records past them are zero, which 9 judges.
#[derive(Clone, Copy, Default)]
pub struct Basin {
    pub n: u64,
    pub m: u64,
    pub subs: [SubBasin; 32],
    pub reaches: [Reach; 31],
}

// The most sub-basins and reaches.
pub const MOST_SUBS: u64 = 32;

pub const MOST_REACHES: u64 = 31;

impl Basin {
    // Whether 9 allows the basin.
    pub fn allowed(&self) -> bool
        ensures answers { result ≡ basin_in self.now }
        ensures judges { result ≡ true → Unused self.now }
    {
        self.others_allowed() && self.subs_used()
    }
}

// What a sub-basin holds: document 01, "The store law", and document 02, No. 8.
ghost use Rattle.std.specs.Prelude.{◌≡◌};
ghost use Rattle.common.specs.Amounts.{capped};
ghost use Rattle.subbasin.specs.Content.{water_depth, water};

use crate::record::{Contents, SubBasin};
use common::amounts;

impl SubBasin {
    // Its water in m³, as far as 64 bits hold it.
    pub fn water(&self) -> u64
        ensures { result ≡ capped (water self.now) }
    {
        let soil = self.fixed.area.saturating_mul(self.contents.depth());
        amounts::total(&[soil, amounts::total(&self.line.waiting), self.channel])
    }
}

impl Contents {
    // The depth of all that waits over the sub-basin, in µm.
    #[tactic(auto, unfolding(common::specs::Amounts::sum))]
    fn depth(&self) -> u64
        ensures { result ≡ capped (water_depth self.now) }
    {
        amounts::total(&[self.wu, self.wl, self.wd, self.g, self.vi, self.vg, self.sn])
    }
}

// Free water, what is kept of it and what drains: document 01, "One sub-basin, one step". All in µm.
ghost use Rattle.std.specs.Prelude.{◌≡◌, ◌+◌, ◌≤◌, ◌<◌};
ghost use Rattle.subbasin.specs.Workers.{FreeIn};
ghost use Rattle.subbasin.specs.FreeWater.{ms, level, keep, drained};

use crate::ground::Ground;
use crate::record::Parameters;
use common::shares::ONE;

// Interflow and ground water, and the free water that is left.
#[derive(Drop)]
pub struct Drained {
    pub ri: u64,
    pub rg: u64,
    pub g: u64,
}

// They ask that the words are inside their ranges, as those of `soil` do.
impl Parameters {
    // The greatest point capacity of free water, MS.
    #[tactic(auto, unfolding(crate::specs::FreeWater::ms))]
    pub(crate) fn ms(&self) -> u64
        requires { FreeIn self.now }
        ensures { result ≡ ms self.now }
    {
        self.sm * self.xn / 16
    }

    // What is kept drains.
    #[tactic(auto, using(crate::proofs::free_water::FreeWaterLaws::drains_most), unfolding(crate::specs::FreeWater::drained))]
    pub(crate) fn drain(&self, kept: u64) -> Drained
        requires { FreeIn self.now × (kept ≤ self.now.sm) }
        ensures answered { result ≡ drained self.now kept }
        ensures most { result.ri + result.rg ≤ kept }
    {
        let ri = self.ki * kept / ONE;
        let rg = self.kg * kept / ONE;
        Drained {
            ri,
            rg,
            g: kept - ri - rg,
        }
    }
}

impl Ground<'_> {
    // What is kept of g + r, where r of pe runs off.
    #[tactic(auto, using(crate::proofs::free_water::FreeWaterLaws::level_le), unfolding(crate::specs::FreeWater::keep))]
    pub fn keep_of(&self, g: u64, pe: u64, r: u64) -> u64
        requires { (g ≤ self.now.p.now.sm) × (0 < r) × (r ≤ pe) × (pe ≤ 1000000) }
        ensures { result ≡ keep self.now.p.now g pe r }
    {
        let top = self.free_top(self.level_of(g, pe, r), pe);
        (g + r).min(top * r / pe)
    }

    // S, free water over the producing area, which is r / pe of the sub-basin.
    #[tactic(auto, unfolding(crate::specs::FreeWater::level))]
    fn level_of(&self, g: u64, pe: u64, r: u64) -> u64
        requires { (g ≤ self.now.p.now.sm) × (0 < r) × (pe ≤ 1000000) }
        ensures { result ≡ level self.now.p.now g pe r }
    {
        self.p.sm.min(g * pe / r)
    }
}

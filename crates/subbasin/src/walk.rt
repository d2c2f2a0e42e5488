// The rains of 0, 1, 2 .. whole millimetres on one sub-basin's tension water, in one walk. They share their whole slices, and each rain
// adds its rest; RB + R is what the tension water doesn't gain of PE, so nothing else is carried. All in µm.
ghost use Rattle.std.specs.Prelude.{◌≡◌, ◌≤◌};
ghost use Rattle.subbasin.specs.Soil.{wm};
ghost use Rattle.subbasin.specs.Slices.{most_slice};
ghost use Rattle.subbasin.specs.Workers.{soaked, unwalked, climbed, walked_to, net_rain};

use crate::ground::Ground;
use crate::slices::SLICE;

// At a rain: PE, its whole slices, the tension water after these, and after all of PE.
#[derive(Drop)]
pub struct Walk {
    pub pe: u64,
    pub slices: u64,
    pub whole: u64,
    pub w: u64,
}

impl Walk {
    // Before the first rain.
    pub fn begin(w: u64) -> Walk
        ensures { result ≡ unwalked w }
    {
        Walk {
            pe: 0,
            slices: 0,
            whole: w,
            w,
        }
    }

    // On to the rain of k millimetres, where EP is e.
    #[tactic(auto, using(crate::proofs::walk::WalkLaws::climbed_in), unfolding(crate::specs::Workers::walked_to))]
    pub fn go_on(self, ground: &Ground, e: u64, k: u64) -> Walk
        requires { (self.whole ≤ wm ground.now.p.now) × (k ≤ 1000) }
        ensures { result ≡ walked_to ground.now.p.now (net_rain e k) self }
    {
        let pe = (1000 * k).saturating_sub(e);
        let slices = pe / SLICE;
        let whole = self.climb(ground, slices);
        Walk {
            pe,
            slices,
            whole,
            w: ground.soak(whole, pe % SLICE),
        }
    }

    // The tension water after so many whole slices, one more than before at most.
    #[tactic(auto, unfolding(crate::specs::Workers::climbed))]
    fn climb(&self, ground: &Ground, slices: u64) -> u64
        requires { self.now.whole ≤ wm ground.now.p.now }
        ensures { result ≡ climbed ground.now.p.now self.now.whole self.now.slices slices }
    {
        if self.slices < slices {
            return ground.soak(self.whole, SLICE);
        }
        self.whole
    }
}

impl Ground<'_> {
    // The tension water w after a slice of pe.
    #[tactic(auto, using(crate::proofs::walk::WalkLaws::soaked_none, crate::proofs::walk::WalkLaws::soaked_in), unfolding(crate::specs::Workers::soaked))]
    fn soak(&self, w: u64, pe: u64) -> u64
        requires { (w ≤ wm self.now.p.now) × (pe ≤ most_slice) }
        ensures { result ≡ soaked self.now.p.now pe w }
    {
        if pe == 0 {
            return w;
        }
        w + self.gain_of(w, pe)
    }
}

// Net rain in slices of 5 mm: document 02, No. 3. All in µm.
ghost use Rattle.std.specs.Prelude.{◌≡◌, ◌+◌, ◌≤◌, ◌<◌};
ghost use Rattle.subbasin.specs.Workers.{LayersIn, RoomFor};
ghost use Rattle.subbasin.specs.Slices.{slices, no_slice, added, after_slice, sliced};

use crate::ground::Ground;
use crate::soil::{Layers, Runoff};

// The depth of a slice; the last is the rest.
pub const SLICE: u64 = 5000;

// What the slices of a step have given: runoff and surface flow as sums, the layers, and the free water that is kept.
#[derive(Clone, Copy)]
pub struct Sliced {
    pub rb: u64,
    pub r: u64,
    pub rs: u64,
    pub layers: Layers,
    pub kept: u64,
}

impl Ground<'_> {
    // Net rain pe on the layers w and the free water g, slice by slice.
    pub fn take_slices(&self, w: Layers, g: u64, pe: u64) -> Sliced
        requires { LayersIn self.now.p.now w × (g ≤ self.now.p.now.sm) × (pe ≤ 1000000) }
        ensures answered { result ≡ sliced self.now.p.now w g pe }
        ensures kept_most { result.kept ≤ self.now.p.now.sm }
        ensures direct_most { result.rs + result.rb ≤ 1100000 }
    {
        let mut given = Sliced::begin(w, g);
        for i in 0..count(pe) {
            given = self.take_slice(given, SLICE.min(pe - i * SLICE));
        }
        given
    }

    // One slice.
    #[tactic(auto, using(crate::proofs::slices::SlicesLaws::slice_laws), unfolding(crate::specs::Slices::after_slice))]
    fn take_slice(&self, s: Sliced, pe: u64) -> Sliced
        requires { RoomFor self.now.p.now pe s × (0 < pe) }
        ensures { result ≡ after_slice self.now.p.now pe s }
    {
        let ro = self.run_off(s.layers, pe);
        if ro.r == 0 {
            return s.add(ro, s.kept);
        }
        s.add(ro, self.keep_of(s.kept, pe, ro.r))
    }
}

impl Sliced {
    pub fn begin(w: Layers, g: u64) -> Sliced
        ensures { result ≡ no_slice w g }
    {
        Sliced {
            rb: 0,
            r: 0,
            rs: 0,
            layers: w,
            kept: g,
        }
    }

    // With a slice's runoff, and what is kept after it.
    fn add(self, ro: Runoff, kept: u64) -> Sliced
        requires { (self.rb + self.r + ro.rb + ro.r ≤ 1000000) × (self.rs + self.kept + ro.r ≤ 1100000) × (kept ≤ self.kept + ro.r) }
        ensures { result ≡ added self ro kept }
    {
        Sliced {
            rb: self.rb + ro.rb,
            r: self.r + ro.r,
            rs: self.rs + (self.kept + ro.r - kept),
            layers: ro.layers,
            kept,
        }
    }
}

// How many slices pe is cut into. By `div_ceil`, which divides twice, a step took 1 % more instructions.
#[tactic(auto, unfolding(crate::specs::Slices::slices))]
fn count(pe: u64) -> u64
    requires { pe ≤ 1000000 }
    ensures { result ≡ slices pe }
{
    (pe + (SLICE - 1)) / SLICE
}

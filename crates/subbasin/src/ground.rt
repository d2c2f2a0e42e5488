// The soil and the free water of a sub-basin: their words, which are inside their ranges, a capacity curve for each, and the table of
// roots by which the curves are read. All in µm.
ghost use Rattle.std.specs.Prelude.{◌≡◌, true, ◌≤◌};
ghost use Rattle.curve.specs.Capacity.{curve_in, rise};
ghost use Rattle.subbasin.specs.Record.{record_in};
ghost use Rattle.subbasin.specs.Soil.{wm, mm};
ghost use Rattle.subbasin.specs.FreeWater.{ms};
ghost use Rattle.subbasin.specs.Step.{layers_of};
ghost use Rattle.subbasin.specs.Workers.{SoilIn, LayersIn, FreeIn, soil_curve, free_curve};

use crate::record::{Parameters, SubBasin};
use curve::capacity::{Curve, Roots};

// Its methods ask besides that net rain is at most 1,000,000, and that layers or tension water are within their capacities. These tie what
// is handed in to the ground: a type for them would be unwrapped in every line, and made anew for every slice.
#[derive(Clone, Copy)]
pub struct Ground<'a> {
    roots: &'a Roots,
    pub p: &'a Parameters,
    soil: Curve,
    free: Curve,
    ghost soil_in: { SoilIn p.now },
    ghost free_in: { FreeIn p.now },
    ghost soil_is: { soil ≡ soil_curve p.now },
    ghost free_is: { free ≡ free_curve p.now },
}

impl<'a> Ground<'a> {
    // Of a record that 9 allows.
    #[tactic(auto, using(crate::proofs::ground::GroundLaws::ground_laws))]
    pub fn of(roots: &'a Roots, s: &'a SubBasin) -> Ground<'a>
        requires { record_in s.now.fixed.reach s.now ≡ true }
        ensures words { result.p.now ≡ s.now.fixed }
        ensures layers_fit { LayersIn result.p.now (layers_of s.now.contents) }
        ensures g_fits { s.now.contents.g ≤ result.p.now.sm }
    {
        let p = &s.fixed;
        Ground {
            roots,
            p,
            soil: Curve {
                c: p.wm(),
                m: p.mm(),
                e: p.bn,
            },
            free: Curve {
                c: p.sm,
                m: p.ms(),
                e: p.xn,
            },
        }
    }

    // What the soil holds once pe has come on top of tension water w.
    #[tactic(auto, using(crate::proofs::ground::GroundLaws::soil_curve_in))]
    pub fn soil_top(&self, w: u64, pe: u64) -> u64
        requires { (w ≤ wm self.now.p.now) × (pe ≤ 1000000) }
        ensures { let p = self.now.p.now in result ≡ rise (wm p) (mm p) p.bn w pe }
    {
        raise(self.roots, self.soil, w, pe)
    }

    // What the curve of free water holds once pe has come on top of s.
    #[tactic(auto, using(crate::proofs::ground::GroundLaws::free_curve_in, curve::proofs::capacity::HeldLaws::rise_le))]
    pub fn free_top(&self, s: u64, pe: u64) -> u64
        requires { (s ≤ self.now.p.now.sm) × (pe ≤ 1000000) }
        ensures risen { let p = self.now.p.now in result ≡ rise p.sm (ms p) p.xn s pe }
        ensures most { result ≤ self.now.p.now.sm }
    {
        raise(self.roots, self.free, s, pe)
    }
}

// What the curve holds once pe has come on top of w.
fn raise(roots: &Roots, curve: Curve, w: u64, pe: u64) -> u64
    requires { (curve_in curve.c curve.m curve.e ≡ true) × (w ≤ curve.c) × (pe ≤ 1000000) }
    ensures { result ≡ rise curve.c curve.m curve.e w pe }
{
    let from = curve.ordinate(roots, w).unwrap();
    curve.held(roots, (from + pe).min(curve.m)).unwrap()
}

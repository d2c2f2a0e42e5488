// Evapotranspiration, runoff and the three layers of tension water: document 01, "One sub-basin, one step". All in µm.
ghost use Rattle.std.specs.Prelude.{◌≡◌, ◌+◌, ◌-◌, ◌^◌, ◌≤◌, ◌<◌};
ghost use Rattle.subbasin.specs.Workers.{SoilIn, LayersIn};
ghost use Rattle.subbasin.specs.Soil.{ep, fallen, deeper, evaporated, tension, wm, mm, rb, gain, refilled, runoff};
ghost use Rattle.subbasin.specs.Step.{layers_of};

use crate::ground::Ground;
use crate::record::{Contents, Parameters};
use common::shares::ONE;

// Water in the upper, lower and deep layer.
#[derive(Clone, Copy)]
pub struct Layers {
    pub wu: u64,
    pub wl: u64,
    pub wd: u64,
}

impl From<Contents> for Layers {
    ghost from_gives = { λ w l. l ≡ layers_of w };

    fn from(w: Contents) -> Layers {
        Layers {
            wu: w.wu,
            wl: w.wl,
            wd: w.wd,
        }
    }
}

// Evapotranspiration by layer, net rain, and the layers that are left.
#[derive(Drop)]
pub struct Evaporated {
    pub eu: u64,
    pub el: u64,
    pub ed: u64,
    pub pe: u64,
    pub layers: Layers,
}

// Impervious and pervious runoff, and the layers after the gain.
#[derive(Clone, Copy)]
pub struct Runoff {
    pub rb: u64,
    pub r: u64,
    pub layers: Layers,
}

impl Layers {
    // Tension water, W.
    pub fn tension(&self) -> u64
        requires { tension self.now < 2 ^ 64 }
        ensures { result ≡ tension self.now }
    {
        self.wu + self.wl + self.wd
    }

    // What has been drawn from the layers, u, el and ed, and what they then hold; there is no net rain.
    fn fall(self, rain: u64, u: u64, el: u64, ed: u64) -> Evaporated
        requires { (u ≤ self.wu) × (el ≤ self.wl) × (ed ≤ self.wd) × (rain + u ≤ 200000) }
        ensures { result ≡ fallen self rain u el ed }
    {
        Evaporated {
            eu: rain + u,
            el,
            ed,
            pe: 0,
            layers: Layers {
                wu: self.wu - u,
                wl: self.wl - el,
                wd: self.wd - ed,
            },
        }
    }
}

// They ask that the words are inside their ranges. A `Ground`, of which that is known, is made by the first two; without net rain none is made.
impl Parameters {
    // What all layers hold, WM.
    pub(crate) fn wm(&self) -> u64
        requires { SoilIn self.now }
        ensures { result ≡ wm self.now }
    {
        self.um + self.lm + self.dm
    }

    // The greatest point capacity of tension water, MM.
    #[tactic(auto, unfolding(crate::specs::Soil::mm))]
    pub(crate) fn mm(&self) -> u64
        requires { SoilIn self.now }
        ensures { result ≡ mm self.now }
    {
        self.wm() * self.bn * ONE / (16 * (ONE - self.im))
    }

    // EP, from the pan depth.
    #[tactic(auto, unfolding(crate::specs::Soil::ep))]
    pub(crate) fn ep(&self, pan: u64) -> u64
        requires { SoilIn self.now × (pan ≤ 100000) }
        ensures answered { result ≡ ep self.now pan }
        ensures most { result ≤ 200000 }
    {
        self.k * pan / ONE
    }

    // EP is e: from rain where it is enough, and otherwise from the layers, the upper one first.
    #[tactic(auto, unfolding(crate::specs::Soil::evaporated))]
    pub(crate) fn evaporate(&self, w: Layers, rain: u64, e: u64) -> Evaporated
        requires { SoilIn self.now × LayersIn self.now w × (e ≤ 200000) }
        ensures answered { result ≡ evaporated self.now w rain e }
        ensures inside { LayersIn self.now result.layers }
        ensures pe_most { result.pe ≤ rain }
    {
        if e <= rain {
            return Evaporated {
                eu: e,
                el: 0,
                ed: 0,
                pe: rain - e,
                layers: w,
            };
        }
        let short = e - rain;
        let u = w.wu.min(short);
        self.draw_deeper(w, rain, u, short - u)
    }

    // What the upper layer leaves wanting, d, is drawn from the lower and the deep layer.
    #[tactic(auto, unfolding(crate::specs::Soil::deeper))]
    fn draw_deeper(&self, w: Layers, rain: u64, u: u64, d: u64) -> Evaporated
        requires { SoilIn self.now × LayersIn self.now w × (d ≤ 200000) × (u ≤ w.wu) × (rain + u ≤ 200000) }
        ensures answered { result ≡ deeper self.now w rain u d }
        ensures inside { LayersIn self.now result.layers }
        ensures no_rain_left { result.pe ≡ 0 }
    {
        if self.c * self.lm <= w.wl * ONE {
            let el = w.wl.min(d * w.wl / self.lm);
            return w.fall(rain, u, el, 0);
        }
        let q = self.c * d / ONE;
        let el = w.wl.min(q);
        let ed = w.wd.min(q - el);
        w.fall(rain, u, el, ed)
    }
}

impl Ground<'_> {
    // Runoff from the impervious part, and from what the soil can't hold of the rest of the net rain.
    #[tactic(auto, using(crate::proofs::soil::SoilLaws::gain_in), unfolding(crate::specs::Soil::runoff, crate::specs::Soil::rb))]
    pub fn run_off(&self, w: Layers, pe: u64) -> Runoff
        requires { LayersIn self.now.p.now w × (0 < pe) × (pe ≤ 1000000) }
        ensures { result ≡ runoff self.now.p.now w pe }
    {
        let rb = self.rb(pe);
        let gained = self.gain_of(w.tension(), pe);
        Runoff {
            rb,
            r: pe - rb - gained,
            layers: self.fill(w, gained),
        }
    }

    // Runoff from the impervious part, RB.
    #[tactic(auto, unfolding(crate::specs::Soil::rb))]
    fn rb(&self, pe: u64) -> u64
        requires { pe ≤ 1000000 }
        ensures { result ≡ rb self.now.p.now pe }
    {
        self.p.im * pe / ONE
    }

    // What soil with tension water w gains of pe.
    #[tactic(auto, using(crate::proofs::soil::SoilLaws::gain_fits), unfolding(crate::specs::Soil::gain, crate::specs::Soil::rb))]
    pub fn gain_of(&self, w: u64, pe: u64) -> u64
        requires { (w ≤ wm self.now.p.now) × (0 < pe) × (pe ≤ 1000000) }
        ensures { let p = self.now.p.now in result ≡ gain p w pe (pe - rb p pe) }
    {
        let top = self.soil_top(w, pe);
        (pe - self.rb(pe)).min(top - w)
    }

    // The gain fills the upper layer, then the lower, then the deep one.
    #[tactic(auto, unfolding(crate::specs::Soil::refilled))]
    fn fill(&self, w: Layers, gained: u64) -> Layers
        requires { let p = self.now.p.now in LayersIn p w × (tension w + gained ≤ wm p) }
        ensures { result ≡ refilled self.now.p.now w gained }
    {
        let upper = gained.min(self.p.um - w.wu);
        let lower = (gained - upper).min(self.p.lm - w.wl);
        Layers {
            wu: w.wu + upper,
            wl: w.wl + lower,
            wd: w.wd + (gained - upper - lower),
        }
    }
}

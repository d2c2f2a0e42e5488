// One sub-basin, one step: document 01, "One sub-basin, one step" and "The store law"; net rain as document 02, No. 3, has it, and snow, No. 8.
ghost use Rattle.std.specs.Prelude.{◌≡◌, true, ◌+◌, ◌≤◌};
ghost use Rattle.common.specs.Shares.{one};
ghost use Rattle.curve.specs.Store.{most_inflow, most_content};
ghost use Rattle.subbasin.specs.Record.{record_in};
ghost use Rattle.subbasin.specs.Slices.{sliced};
ghost use Rattle.subbasin.specs.Step.{holds, let_go, with_drained, on_ground, as_stepped, call_in, sub_call, AsBefore};
ghost use Rattle.subbasin.specs.Workers.{LayersIn};

use crate::free_water::Drained;
use crate::ground::Ground;
use crate::record::{Contents, SubBasin};
use crate::slices::Sliced;
use crate::soil::{Evaporated, Layers};
use common::refusal::Refusal;
use common::shares::ONE;
use common::weather::{LEAST_TEMPERATURE, MOST_PAN, MOST_RAIN, MOST_TEMPERATURE, Weather};
use curve::capacity::{self, Roots};
use curve::store::Store;

// What flows in a step that is accepted: depths in µm, q in m³.
#[derive(Clone, Copy)]
pub struct Flows {
    pub eu: u64,
    pub el: u64,
    pub ed: u64,
    pub rb: u64,
    pub r: u64,
    pub rs: u64,
    pub ri: u64,
    pub rg: u64,
    pub q: u64,
}

// What the stages of soil and free water gave: evapotranspiration, net rain in slices, and what drained.
#[derive(Drop)]
struct Stages {
    ev: Evaporated,
    sl: Sliced,
    dr: Drained,
    ghost direct_most: { sl.rs + sl.rb ≤ 1100000 },
    ghost slow_most: { dr.ri + dr.rg ≤ 100000 },
}

impl SubBasin {
    // Whether a step under this weather is accepted.
    #[tactic(auto, unfolding(crate::specs::Step::call_in))]
    pub(crate) fn accepts(&self, weather: Weather) -> bool
        ensures { result ≡ call_in self.now weather }
    {
        weather.rain <= MOST_RAIN
            && weather.pan <= MOST_PAN
            && (LEAST_TEMPERATURE..=MOST_TEMPERATURE).contains(&weather.temperature)
            && self.allowed(self.fixed.reach)
    }

    // One step under the weather of a line. A step that is refused leaves the record as it was.
    #[tactic(auto, using(crate::proofs::step::CallLaws::call_whole))]
    pub fn step(&mut self, weather: Weather) -> Result<Flows, Refusal>
        ensures { (as_stepped self.new result ≡ sub_call self.old weather) × AsBefore self.old weather (as_stepped self.new result) }
    {
        let roots = capacity::printed_roots();
        self.step_with(&roots, weather)
    }

    // The same with a table of roots that is lent (curve::capacity). `step` is this with the printed table, so a host needs none.
    #[tactic(auto, using(crate::proofs::step::CallLaws::called), unfolding(crate::specs::Step::sub_call))]
    pub fn step_with(&mut self, roots: &Roots, weather: Weather) -> Result<Flows, Refusal>
        ensures { as_stepped self.new result ≡ sub_call self.old weather }
    {
        if !self.accepts(weather) {
            return Err(Refusal::OutOfRange);
        }
        let snow = self.snow(weather);
        self.contents.sn = snow.sn;
        // P takes rain's place.
        let mut reaching = weather;
        reaching.rain = snow.p;
        let stages = self.rain_on(roots, reaching);
        Ok(self.route(stages))
    }

    // The stages of soil and free water, in order, where P is the weather's rain.
    #[tactic(auto, using(crate::proofs::step::CallLaws::called, crate::proofs::step::StageLaws::chained, crate::proofs::ground::GroundLaws::ground_laws))]
    fn rain_on(&self, roots: &Roots, weather: Weather) -> Stages
        requires { call_in self.now weather ≡ true }
        ensures { with_drained self.now result.ev result.sl result.dr ≡ on_ground self.now weather }
    {
        let p = &self.fixed;
        let ev = p.evaporate(self.contents.into(), weather.rain, p.ep(weather.pan));
        let sl = self.take_slices(roots, ev.layers, ev.pe);
        let dr = p.drain(sl.kept);
        Stages { ev, sl, dr }
    }

    // Net rain pe on the layers w, in slices. Where there is none, no curve is worked out.
    #[tactic(auto, using(crate::proofs::ground::GroundLaws::ground_laws, crate::proofs::slices::SlicesLaws::sliced_none))]
    fn take_slices(&self, roots: &Roots, w: Layers, pe: u64) -> Sliced
        requires { (record_in self.now.fixed.reach self.now ≡ true) × LayersIn self.now.fixed w × (pe ≤ 1000000) }
        ensures answered { result ≡ sliced self.now.fixed w self.now.contents.g pe }
        ensures kept_most { result.kept ≤ self.now.fixed.sm }
        ensures direct_most { result.rs + result.rb ≤ 1100000 }
    {
        let g = self.contents.g;
        if pe == 0 {
            return Sliced::begin(w, g);
        }
        Ground::of(roots, self).take_slices(w, g, pe)
    }

    // The slow stores, the lag line and the channel.
    #[tactic(auto, using(crate::proofs::step::RouteLaws::route_laws))]
    fn route(&mut self, stages: Stages) -> Flows
        requires { record_in self.old.fixed.reach self.old ≡ true }
        ensures { as_stepped self.new (Ok result) ≡ with_drained self.old stages.ev stages.sl stages.dr }
    {
        let Stages { ev, sl, dr } = stages;
        let ti = pass(self.fixed.ci, &mut self.contents.vi, dr.ri);
        let tg = pass(self.fixed.cg, &mut self.contents.vg, dr.rg);
        let t = (sl.rs + sl.rb + ti + tg) * self.fixed.area;
        let q = pass(self.fixed.cs, &mut self.channel, self.line.leave(t));
        self.line = self.line.enter(t);
        self.contents = Contents {
            wu: sl.layers.wu,
            wl: sl.layers.wl,
            wd: sl.layers.wd,
            g: dr.g,
            ..self.contents
        };
        Flows {
            eu: ev.eu,
            el: ev.el,
            ed: ev.ed,
            rb: sl.rb,
            r: sl.r,
            rs: sl.rs,
            ri: dr.ri,
            rg: dr.rg,
            q,
        }
    }
}

// The inflow goes through a store that keeps the same share, its recession, of inflow and content. What it lets go.
fn pass(recession: u64, content: &mut u64, inflow: u64) -> u64
    requires { (recession ≤ one) × (content.old ≤ most_content) × (inflow ≤ most_inflow) }
    ensures holds { content.new ≡ holds recession content.old inflow }
    ensures lets_go { result ≡ let_go recession content.old inflow }
    ensures within { result ≤ content.old + inflow }
{
    let share = ONE - recession;
    let taken = Store {
        a: share,
        g: share,
        content: *content,
    }
    .take(inflow);
    *content = taken.store.content;
    taken.outflow.unwrap()
}

// Which rain would do it: document 02, No. 5. At the threshold no snow falls and none melts. Rains are in whole millimetres, all else in µm.
ghost use Rattle.std.specs.Prelude.{◌≡◌, ◌≤◌};
ghost use Rattle.subbasin.specs.Soil.{wm};
ghost use Rattle.subbasin.specs.Step.{call_in};
ghost use Rattle.subbasin.specs.Yields.{raining, yield, Answers, as_answer, own_refusal};
ghost use Rattle.subbasin.specs.Workers.{unsoaked};

use crate::ground::Ground;
use crate::record::SubBasin;
use crate::soil::Layers;
use crate::walk::Walk;
use common::refusal::Refusal;
use common::weather::Weather;
use curve::capacity;

// The most millimetres of a rain.
const MOST_MM: u64 = 1000;

impl SubBasin {
    // A rain for which RB + R of the next step, with this pan depth, is at least the wanted depth, or none.
    #[tactic(auto, using(crate::proofs::yields::YieldsLaws::question_allowed))]
    pub fn rain_for(&self, pan: u64, wanted: u64) -> Result<Option<u64>, Refusal>
        ensures { Answers (own_refusal self.now pan) (yield self.now pan) wanted (as_answer result) }
    {
        if !self.answers(pan) {
            return Err(Refusal::OutOfRange);
        }
        let roots = capacity::printed_roots();
        let ground = Ground::of(&roots, self);
        let w = Layers::from(self.contents).tension();
        Ok(ground.search(w, ground.p.ep(pan), wanted))
    }

    // Whether a question with this pan depth is accepted, as its step would be: a threshold that 9 allows is a temperature, as 0 °C is.
    #[tactic(auto, using(crate::proofs::yields::YieldsLaws::question_judged))]
    fn answers(&self, pan: u64) -> bool
        ensures { result ≡ call_in self.now (raining self.now 0 pan) }
    {
        self.accepts(Weather {
            pan,
            ..Weather::default()
        })
    }
}

impl Ground<'_> {
    // The 1,001 rains in turn on tension water w where EP is e, up to the first that does.
    fn search(&self, w: u64, e: u64, wanted: u64) -> Option<u64>
        requires { w ≤ wm self.now.p.now }
        ensures { Answers 0 (unsoaked self.now.p.now w e) wanted (as_answer (Ok result)) }
    {
        let mut walk = Walk::begin(w);
        for k in 0..=MOST_MM {
            walk = walk.go_on(self, e, k);
            if wanted <= walk.pe + w - walk.w {
                return Some(k);
            }
        }
        None
    }
}

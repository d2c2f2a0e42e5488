// Questions, and what is printed of their answers.
use basin::state::Basin;
use common::refusal::Refusal;
use common::weather::Weather;
use forcing::depth::{self, Gauge};
use subbasin::record::SubBasin;
use testing::refusals;

// A rain, none, or a refusal.
type Answer = Result<Option<u64>, Refusal>;

// A question but for the wanted depth: the pan depth is in millimetres.
#[derive(Clone, Copy)]
pub struct Question<'a> {
    pub basin: &'a Basin,
    pub number: u64,
    pub pan: f32,
}

impl Question<'_> {
    // What is printed of the answer.
    pub fn told(&self, wanted: u64) -> [u64; 4] {
        self.own().row(&self.answer(wanted), wanted)
    }

    fn answer(&self, wanted: u64) -> Answer {
        rains::rain_for(self.basin, self.number, self.pan, wanted)
    }

    // The same of the sub-basin alone.
    pub fn own(&self) -> Own {
        Own {
            sub: self.basin.subs[((self.number % 32 + 31) % 32) as usize],
            pan: depth::depth_of(self.pan, Gauge::Pan).unwrap_or(0),
        }
    }

    // The greatest depth below 2^20 that is answered with a rain, bit by bit.
    pub fn greatest(&self) -> u64 {
        let mut depth = 0;
        for k in 0u64..20 {
            let more = depth | 524288 >> k;
            if rain_of(&self.answer(more)).is_some() {
                depth = more;
            }
        }
        depth
    }
}

fn rain_of(given: &Answer) -> Option<u64> {
    given.unwrap_or(None)
}

// A question of the sub-basin's own call but for the wanted depth: the pan depth is in µm.
#[derive(Clone, Copy)]
pub struct Own {
    pub sub: SubBasin,
    pub pan: u64,
}

impl Own {
    // What is printed of the answer.
    pub fn told(&self, wanted: u64) -> [u64; 4] {
        self.row(&self.sub.rain_for(self.pan, wanted), wanted)
    }

    // Number, place, whether the answer is none, and whether its rain does; of a refusal or none the last is what stands for the rain.
    fn row(&self, given: &Answer, wanted: u64) -> [u64; 4] {
        let [number, place] = refusals::told(given);
        let last = rain_of(given).map_or(0, |rain| u64::from(self.does(rain, wanted)));
        [number, place, u64::from(*given == Ok(None)), last]
    }

    // Whether the rain is one of the 1,001 and yields the wanted depth.
    fn does(&self, rain: u64, wanted: u64) -> bool {
        rain <= 1000 && wanted <= self.yielded(rain)
    }

    // RB + R of a step under so many millimetres of rain, at the snow threshold.
    pub fn yielded(&self, rain: u64) -> u64 {
        let mut after = self.sub;
        match after.step(Weather {
            rain: rain.saturating_mul(1000),
            pan: self.pan,
            temperature: self.sub.fixed.threshold.min(10000) as i64,
        }) {
            Ok(given) => given.rb.wrapping_add(given.r),
            Err(_) => 0,
        }
    }
}

// Snow, which rain joins below the threshold and which melts from there on: document 02, No. 8. Depths in µm, temperatures in thousandths
// of a degree Celsius.
ghost use Rattle.std.specs.Prelude.{◌≡◌, true, ◌≤◌};
ghost use Rattle.common.specs.Weather.{most_rain};
ghost use Rattle.subbasin.specs.Record.{snow_mark};
ghost use Rattle.subbasin.specs.Snow.{joined, melted};
ghost use Rattle.subbasin.specs.Step.{snow_of, call_in};

use crate::record::{SNOW_MARK, SubBasin};
use common::weather::Weather;

// The most of rain and melt that a step takes.
const MOST_P: u64 = 1000000;

// What comes to the ground, P, and the snow that then lies, SN.
#[derive(Clone, Copy)]
pub struct Snow {
    pub p: u64,
    pub sn: u64,
}

impl SubBasin {
    // What this weather makes of the snow.
    #[tactic(auto, unfolding(crate::specs::Snow::snow))]
    pub(crate) fn snow(&self, weather: Weather) -> Snow
        requires { call_in self.now weather ≡ true }
        ensures { result ≡ snow_of self.now weather }
    {
        let sn = self.contents.sn;
        let threshold = self.fixed.threshold as i64;
        if weather.temperature < threshold {
            return Snow::join(sn, weather.rain);
        }
        let above = (weather.temperature - threshold) as u64;
        Snow::melt(sn, weather.rain, sn.min(self.fixed.f * above / 1000))
    }
}

impl Snow {
    // Rain joins the snow, up to its mark.
    #[tactic(auto, unfolding(crate::specs::Snow::joined))]
    fn join(sn: u64, rain: u64) -> Snow
        requires { sn ≤ snow_mark }
        ensures { result ≡ joined sn rain }
    {
        let joins = rain.min(SNOW_MARK - sn);
        Snow {
            p: rain - joins,
            sn: sn + joins,
        }
    }

    // So much melts, and as much of it as is taken leaves.
    #[tactic(auto, unfolding(crate::specs::Snow::melted))]
    fn melt(sn: u64, rain: u64, melt: u64) -> Snow
        requires { (sn ≤ snow_mark) × (rain ≤ most_rain) × (melt ≤ sn) }
        ensures { result ≡ melted sn rain melt }
    {
        let p = (rain + melt).min(MOST_P);
        Snow {
            p,
            sn: sn - (p - rain),
        }
    }
}

// One step of the basin: document 01, "One sub-basin, one step", "The store law" and "The forcing list".
ghost use Rattle.std.specs.Prelude.{◌≡◌, true, cond};
ghost use Rattle.common.specs.Weather.{WeatherIn};
ghost use Rattle.forcing.specs.List.{as_forcing};
ghost use Rattle.basin.specs.Limits.{others_in, basin_in};
ghost use Rattle.basin.specs.Step.{taken, numbers_of, as_outcome, refused_step, step_call, Judged};
ghost use Rattle.basin.specs.Workers.{CountsIn, Weathers, TurnOf, subs_only, SubsOf};

use crate::network;
use crate::state::Basin;
use common::refusal::{Refusal, Refused};
use common::weather::Weather;
use curve::capacity::{self, Roots};
use forcing::list::{self, Line, Readings};
use subbasin::record::SubBasin;

// What a step reports: rain, evapotranspiration, outlet volume and content in m³, and how many lines were estimated. By default zeros, the
// report of no step.
#[derive(Clone, Copy, Default)]
pub struct Report {
    pub rain: u64,
    pub evapotranspiration: u64,
    pub outlet: u64,
    pub content: u64,
    pub estimated: u64,
}

impl Report {
    // Its numbers, in the order in which a step's line has them.
    pub fn numbers(&self) -> [u64; 5]
        ensures { result ≡ numbers_of self.now }
    {
        [
            self.rain,
            self.evapotranspiration,
            self.outlet,
            self.content,
            self.estimated,
        ]
    }
}

impl Basin {
    // One step under a forcing list of count lines, in a fixed array as document 01 has it. 9 is judged before 5, and 5 before the lines. A
    // step that is refused leaves the basin as it was.
    pub fn step(&mut self, lines: [Line; 32], count: u64) -> Result<Report, Refused>
        ensures answers { as_outcome self.new result ≡ step_call self.old lines count }
        ensures judges { Judged self.old lines count (as_outcome self.new result) }
    {
        let roots = capacity::printed_roots();
        self.step_with(&roots, lines, count)
    }

    // The same with a table of roots that is lent (curve::capacity). `step` is this with the printed table, so a host needs none.
    pub fn step_with(
        &mut self,
        roots: &Roots,
        lines: [Line; 32],
        count: u64,
    ) -> Result<Report, Refused>
        ensures answers { as_outcome self.new result ≡ step_call self.old lines count }
        ensures judges { Judged self.old lines count (as_outcome self.new result) }
    {
        if !self.others_allowed() {
            return Err(Refusal::BadBasin.into());
        }
        let readings = list::read(lines, count, self.n).map_err(|by_lines| self.refusal(by_lines))?;
        self.take(roots, &readings)
    }

    // Why a step is refused whose lines are: by 9 where that doesn't allow a sub-basin in use.
    fn refusal(&self, by_lines: Refused) -> Refused
        requires { others_in self.now ≡ true }
        ensures { as_outcome self.now (Err result) ≡ cond (basin_in self.now) (as_outcome self.now (Err by_lines)) (refused_step self.now 9 0) }
    {
        if self.subs_used() {
            return by_lines;
        }
        Refusal::BadBasin.into()
    }

    // A step whose lines are accepted, on a basin that 9 allows but for the sub-basins in use: their own steps judge their records, and
    // a refusal there is the basin's 9.
    fn take(&mut self, roots: &Roots, readings: &Readings) -> Result<Report, Refused>
        requires { (others_in self.old ≡ true) × Weathers readings.now.weather }
        ensures { as_outcome self.new result ≡ cond (basin_in self.old) (taken self.old (as_forcing (Ok readings.now))) (refused_step self.old 9 0) }
    {
        // a copy: a step that meets 9 leaves the basin as it was
        let mut subs = self.subs;
        let mut stepped = step_subs(roots, &mut subs, &readings.weather, self.n, self.m)?;
        let routed = network::route(&mut self.reaches, &mut stepped.sent, self.m);
        self.subs = subs;
        Ok(Report {
            rain: stepped.rain,
            evapotranspiration: stepped.loss,
            outlet: routed.outlet,
            content: stepped.held + routed.held,
            estimated: readings.estimated,
        })
    }
}

// What the sub-basins sent to the outlet and the reaches, rain and loss, and what they then hold.
#[derive(Drop)]
struct Subs {
    sent: [u64; 32],
    rain: u64,
    loss: u64,
    held: u64,
}

// The steps of sub-basins 1..N, up to the first that is refused.
#[tactic(auto, using(crate::proofs::step::SubsLaws::stepping_fits))]
fn step_subs(
    roots: &Roots,
    subs: &mut [SubBasin; 32],
    weather: &[Weather; 32],
    n: u64,
    m: u64,
) -> Result<Subs, Refusal>
    requires { CountsIn n m × Weathers weather.now }
    ensures { SubsOf (subs_only n m subs.old) weather.now subs.new result }
{
    let mut sent = [0; 32];
    let mut rain = 0;
    let mut loss = 0;
    let mut held = 0;
    // By index: what is lent by `iter_mut().zip(weather)` (tried) is not known to a proof in the loop, nor after it.
    for i in 0..n as usize {
        let turn = take_turn(roots, &mut subs[i], weather[i], m)?;
        sent[turn.to as usize] += turn.q;
        rain += turn.rain;
        loss += turn.loss;
        held += turn.held;
    }
    Ok(Subs {
        sent,
        rain,
        loss,
        held,
    })
}

// The volume q that a sub-basin sends and where to, its rain and loss, and what it then holds, all in m³.
#[derive(Drop)]
struct Turn {
    to: u64,
    q: u64,
    rain: u64,
    loss: u64,
    held: u64,
}

fn take_turn(roots: &Roots, s: &mut SubBasin, w: Weather, m: u64) -> Result<Turn, Refusal>
    requires { WeatherIn w }
    ensures { TurnOf m s.old w s.new result }
{
    let area = s.fixed.area;
    let reach = s.fixed.reach;
    if m < reach {
        return Err(Refusal::BadBasin);
    }
    let flows = s.step_with(roots, w).or(Err(Refusal::BadBasin))?;
    Ok(Turn {
        to: reach,
        q: flows.q,
        rain: area * w.rain,
        loss: area * (flows.eu + flows.el + flows.ed),
        held: s.water(),
    })
}

// How long it takes to answer for all 1,001 rains, for model/bench: 32 ordinary sub-basins that are dry, as drawn or wet, that never fill,
// and that never run off but from their impervious part; a depth that no rain yields, and beside it the sub-basin call at 1,000 mm.
// `rain_speed WAY STATE` goes a hundred rounds by one way, each time with a WU that hangs on what came before; without arguments it goes
// one by each, which is a test.
#![tactic(auto)]

use basin_testing::calls;
use common::refusal::Refusal;
use common::weather::Weather;
use std::{env, fmt, io};
use subbasin::record::SubBasin;
use subbasin::step::Flows;
use testing::chance::Chance;
use testing::checksum::Checksum;
use testing::choices::Choice;
use testing::drafts::Plan;
use testing::{choices, refusals};

#[derive(Clone, Copy)]
enum Way {
    Idle,
    Call,
    None,
}

#[derive(Clone, Copy)]
enum State {
    Dry,
    Any,
    Wet,
    // Dry, with the most of UM, LM and DM, a BN that asks for every root, and no IM.
    Large,
    // The same with the least of BN, and the most of IM.
    Even,
}

fn main(rt: HostRuntime) -> io::Result<()> {
    let mut words = env::args(&rt)?;
    if let Some(word) = words.nth(1) {
        let state = words
            .next()
            .map_or(State::Any, |state| State::from(state.as_str()));
        return print(&rt, Way::from(word.as_str()), state, 100);
    }
    for state in State::ALL {
        print(&rt, Way::Call, state, 1)?;
        print(&rt, Way::None, state, 1)?;
    }
    Ok(())
}

// By its first letter, and so the state; any other word is idle, and as drawn.
impl From<&str> for Way {
    fn from(word: &str) -> Way {
        match word.as_bytes() {
            [b'c', ..] => Way::Call,
            [b'n', ..] => Way::None,
            _ => Way::Idle,
        }
    }
}

impl From<&str> for State {
    fn from(word: &str) -> State {
        match word.as_bytes() {
            [b'd', ..] => State::Dry,
            [b'w', ..] => State::Wet,
            [b'l', ..] => State::Large,
            [b'e', ..] => State::Even,
            _ => State::Any,
        }
    }
}

impl fmt::Display for Way {
    fn fmt<W: fmt::Write>(&self, f: &mut fmt::Formatter<W>) -> fmt::Result {
        f.write_str(match self {
            Way::Idle => "idle",
            Way::Call => "call",
            Way::None => "none",
        })
    }
}

impl fmt::Display for State {
    fn fmt<W: fmt::Write>(&self, f: &mut fmt::Formatter<W>) -> fmt::Result {
        f.write_str(match self {
            State::Dry => "dry",
            State::Any => "any",
            State::Wet => "wet",
            State::Large => "large",
            State::Even => "even",
        })
    }
}

// The checksum of all answers.
fn print(rt: &impl Print, way: Way, state: State, rounds: u64) -> io::Result<()> {
    println!(rt; "{way} {state} {}", way.taken(state, rounds))
}

impl Way {
    fn taken(self, state: State, rounds: u64) -> Checksum {
        match self {
            Way::Idle => taken(state, rounds, |_, _| {}),
            Way::Call => taken(state, rounds, |s, sum| add_call(sum, s.step(MOST))),
            Way::None => taken(state, rounds, |s, sum| {
                add_answer(sum, s.rain_for(0, u64::MAX))
            }),
        }
    }
}

// At 10 °C, where no threshold makes snow of the rain.
const MOST: Weather = Weather {
    rain: 1000000,
    pan: 0,
    temperature: 10000,
};

// What is asked of each sub-basin in turn, beside which idle takes the WU alone.
fn taken<F: Fn(&mut SubBasin, &mut Checksum)>(state: State, rounds: u64, ask: F) -> Checksum
    requires { F.IsAlwaysCallable ask }
{
    let mut b = calls::started(Plan::chain(Choice::Ordinary, 32, 31), &mut Chance::new());
    for s in &mut b.subs {
        state.fill(s);
    }
    let mut sum = Checksum { h: 1 };
    for _ in 0..rounds {
        for s in &b.subs {
            let mut s = *s;
            s.contents.wu = state.upper(s.fixed.um, sum.h);
            sum.add(s.contents.wu);
            ask(&mut s, &mut sum);
        }
    }
    sum
}

impl State {
    const ALL: [State; 5] = [
        State::Dry,
        State::Any,
        State::Wet,
        State::Large,
        State::Even,
    ];

    // All but WU.
    fn fill(self, s: &mut SubBasin) {
        match self {
            State::Dry => empty(s),
            State::Any => {}
            State::Wet => {
                s.contents.wl = s.fixed.lm;
                s.contents.wd = s.fixed.dm;
                s.contents.g = s.fixed.sm;
            }
            State::Large => {
                empty(s);
                enlarge(s, 31, 0);
            }
            State::Even => {
                empty(s);
                enlarge(s, 16, 32768);
            }
        }
    }

    // WU.
    fn upper(self, um: u64, h: u64) -> u64 {
        match self {
            State::Any => choices::up_to(um, h),
            State::Wet => if 100 < um { um - h % 100 } else { um },
            _ => h % 100,
        }
    }
}

fn empty(s: &mut SubBasin) {
    s.contents.wl = 0;
    s.contents.wd = 0;
    s.contents.g = 0;
}

// The most of UM, LM and DM.
fn enlarge(s: &mut SubBasin, bn: u64, im: u64) {
    s.fixed.um = 100000;
    s.fixed.lm = 200000;
    s.fixed.dm = 200000;
    s.fixed.bn = bn;
    s.fixed.im = im;
}

fn add_call(sum: &mut Checksum, given: Result<Flows, Refusal>) {
    sum.add(refusals::told(&given)[0]);
    sum.add_row(&given.map_or([0; 3], |flows| [flows.rb, flows.r, flows.q]));
}

fn add_answer(sum: &mut Checksum, given: Result<Option<u64>, Refusal>) {
    let none = u64::from(given == Ok(None));
    let rain = given.unwrap_or(None).unwrap_or(0);
    sum.add_row(&refusals::told(&given));
    sum.add_row(&[none, rain]);
}

// Which rain would do it: document 02, No. 5.
#![tactic(auto)]

ghost use Rattle.std.specs.Prelude.{◌≡◌};
ghost use Rattle.forcing.specs.Depth.{as_depth};
ghost use Rattle.subbasin.specs.Yields.{as_answer};
ghost use Rattle.rains.specs.Question.{asked, RainFor, Turns};

use basin::state::Basin;
use common::refusal::Refusal;
use forcing::depth::{self, Gauge};

// A rain for which RB + R of the next step of the sub-basin with this number, with this pan depth in mm, is at least the wanted depth in
// µm, or none. The basin is only looked at.
#[tactic(auto, using(crate::proofs::QuestionLaws::number_in))]
pub fn rain_for(b: &Basin, number: u64, pan: f32, wanted: u64) -> Result<Option<u64>, Refusal>
    ensures answers { RainFor b.now number pan wanted (as_answer result) }
    ensures judges { Turns b.now number pan (as_answer result).number }
{
    let depth = judge(b, number, pan)?;
    b.subs[(number - 1) as usize].rain_for(depth, wanted)
}

// The pan's depth, or the refusal of a question: 9 is judged before 11, and 11 before the pan.
#[tactic(auto, using(crate::proofs::QuestionLaws::whose_turn))]
fn judge(b: &Basin, number: u64, pan: f32) -> Result<u64, Refusal>
    ensures { as_depth result ≡ asked b.now number pan }
{
    if !b.allowed() {
        return Err(Refusal::BadBasin);
    }
    if !(1..=b.n).contains(&number) {
        return Err(Refusal::NoSuchSubBasin);
    }
    depth::depth_of(pan, Gauge::Pan)
}

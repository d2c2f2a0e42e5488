// The capacity curve: document 01, "The capacity curve". Shares are in parts of 65,536, capacities in µm.
ghost use Rattle.std.specs.Prelude.{◌≡◌, ◌↔◌, IsTrue, ◌≤◌};
ghost use Rattle.common.specs.Shares.{one};
ghost use Rattle.curve.specs.Capacity.{held, held_at, least_share, ordinate, as_answer, root_call, power_call, held_call, ordinate_call};
ghost use Rattle.curve.specs.Workers.{CurveIn};

pub use crate::roots::{FindRoot, Newton, Printed, Roots, printed_roots};
use crate::share::Share;
use crate::{guesses, powers};
use common::refusal::Refusal;
use common::shares::ONE;

// A capacity curve: its mean and its greatest point capacity, and its exponent.
#[derive(Clone, Copy)]
pub struct Curve {
    pub c: u64,
    pub m: u64,
    pub e: u64,
}

// The limits of a curve call.
const LEAST_E: u64 = 16;

const MOST_E: u64 = 48;

const MOST_C: u64 = 500000;

const MOST_M: u64 = 2000000;

// The greatest r with r * r <= t * 65,536.
#[tactic(auto, using(crate::proofs::capacity::CallLaws::root_accepts, crate::proofs::capacity::CallLaws::root_refuses))]
pub fn root<R: FindRoot>(roots: &R, t: u64) -> Result<u64, Refusal>
    ensures { as_answer result ≡ root_call t }
{
    let r = roots.root_of(Share::try_from(t)?);
    Ok(r.parts)
}

// The share t raised to e / 16.
#[tactic(auto, using(crate::proofs::capacity::CallLaws::power_accepts, crate::proofs::capacity::CallLaws::power_refuses))]
pub fn power<R: FindRoot>(roots: &R, t: u64, e: u64) -> Result<u64, Refusal>
    ensures { as_answer result ≡ power_call t e }
{
    let t = Share::try_from(t)?;
    if !(LEAST_E..=MOST_E).contains(&e) {
        return Err(Refusal::OutOfRange);
    }
    let p = powers::power_of(roots, t, e);
    Ok(p.parts)
}

impl Curve {
    // What is held below the ordinate a.
    #[tactic(auto, using(crate::proofs::capacity::CallLaws::held_accepts, crate::proofs::capacity::CallLaws::held_refuses))]
    pub fn held<R: FindRoot>(self, roots: &R, a: u64) -> Result<u64, Refusal>
        ensures { as_answer result ≡ held_call self.c self.m self.e a }
    {
        if !self.is_inside() || self.m < a {
            return Err(Refusal::OutOfRange);
        }
        Ok(Inside { curve: self }.held(roots, a))
    }

    // The greatest ordinate below which at most w is held.
    #[tactic(auto, using(crate::proofs::capacity::CallLaws::ordinate_accepts, crate::proofs::capacity::CallLaws::ordinate_refuses))]
    pub fn ordinate<R: FindRoot>(self, roots: &R, w: u64) -> Result<u64, Refusal>
        ensures { as_answer result ≡ ordinate_call self.c self.m self.e w }
    {
        if !self.is_inside() || self.c < w {
            return Err(Refusal::OutOfRange);
        }
        Ok(Inside { curve: self }.ordinate(roots, w))
    }

    // Whether c, m and e are inside their limits.
    fn is_inside(self) -> bool
        ensures { IsTrue result ↔ CurveIn self.c self.m self.e }
    {
        (1..=MOST_C).contains(&self.c)
            && (1..=MOST_M).contains(&self.m)
            && (LEAST_E..=MOST_E).contains(&self.e)
    }
}

// A curve inside its limits. The roots go beside it: tried, but of a struct with a reference each clause has to say at which end of a call.
#[derive(Clone, Copy)]
struct Inside {
    curve: Curve,
    ghost in_limits: { CurveIn curve.c curve.m curve.e },
}

impl Inside {
    #[tactic(auto, using(crate::proofs::capacity::HeldLaws::held_is), unfolding(crate::specs::Capacity::share_above))]
    fn held<R: FindRoot>(self, roots: &R, a: u64) -> u64
        requires { a ≤ self.curve.m }
        ensures { result ≡ held self.curve.c self.curve.m self.curve.e a }
    {
        let m = self.curve.m;
        let parts = (m - a) * ONE / m;
        self.held_at(roots, Share { parts })
    }

    // What is held below an ordinate with the share t above it.
    #[tactic(auto, unfolding(crate::specs::Capacity::held_at))]
    fn held_at<R: FindRoot>(self, roots: &R, t: Share) -> u64
        ensures { result ≡ held_at self.curve.c self.curve.e t }
    {
        let c = self.curve.c;
        let p = powers::power_of(roots, t, self.curve.e);
        c - c * p.parts / ONE
    }

    // The last ordinate with the least share or more above it.
    #[tactic(auto, using(crate::proofs::capacity::ShareLaws::ordinate_by_share, crate::proofs::capacity::ShareLaws::least_share_le), unfolding(crate::specs::Capacity::last_above))]
    fn ordinate<R: FindRoot>(self, roots: &R, w: u64) -> u64
        requires { w ≤ self.curve.c }
        ensures { result ≡ ordinate self.curve.c self.curve.m self.curve.e w }
    {
        let m = self.curve.m;
        let t = self.least_share(roots, w);
        m - (t * m).div_ceil(ONE)
    }

    // The interval from lo to hi is narrowed: with the share hi at most w is held, with lo more. The first trial is a guess. From it the
    // trials go 1 share on, 1 again, 2, 4 and so on, and where that leaves the interval to its middle. Any share between lo and hi would do.
    // The share is yielded by break, as document 01 has it.
    #[tactic(auto, using(crate::proofs::capacity::ShareLaws::search_laws))]
    fn least_share<R: FindRoot>(self, roots: &R, w: u64) -> u64
        requires { w ≤ self.curve.c }
        ensures { result ≡ least_share self.curve.c self.curve.e w }
    {
        let c = self.curve.c;
        if w == c {
            return 0;
        }
        // with a lesser power more than w is held
        let power = ((c - w) * ONE).div_ceil(c);
        let mut lo = 0;
        let mut hi = ONE;
        let mut at = guesses::share_of(power, self.curve.e);
        let mut step = 1u64;
        loop {
            let far = step.div_ceil(2);
            step = (step * 2).min(ONE);
            if self.held_at(roots, Share { parts: at }) <= w {
                if at - lo <= 1 {
                    break at;
                }
                hi = at;
                at = if far < hi - lo {
                    hi - far
                } else {
                    (lo + hi) / 2
                };
            } else {
                if hi - at <= 1 {
                    break hi;
                }
                lo = at;
                at = if far < hi - lo {
                    lo + far
                } else {
                    (lo + hi) / 2
                };
            }
        }
    }
}

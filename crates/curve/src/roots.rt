// The root, and the ways to find it: document 01, "The capacity curve", and request 1 of document 02, "Roots out of a printed table".
ghost use Rattle.std.specs.Prelude.{◌≡◌, ◌≤◌, ◌<◌};
ghost use Rattle.common.specs.Shares.{one};
ghost use Rattle.curve.specs.Capacity.{root, printed_roots};
ghost use Rattle.curve.specs.Workers.{Leads, Enters};

use crate::share::Share;
use crate::table::ROOTS;
use common::shares::ONE;

// A table of roots, to be lent: whatever stands in it, an answer is the same, and by the printed one it comes soonest.
pub type Roots = [u32; 1024];

// A way to find a root.
pub trait FindRoot {
    // The greatest r with r * r <= t * 65,536.
    fn root_of(&self, t: Share) -> Share
        ensures { result ≡ root t };
}

// By Newton's steps.
#[derive(Clone, Copy)]
pub struct Newton;

// By the printed table, where it stands.
#[derive(Clone, Copy)]
pub struct Printed;

// Below this the argument's own entry is the root.
const ENTRIES: u64 = 1024;

// From here on the entry of t / 64 leads near enough.
const NEAR: u64 = 4096;

// No entry of the printed table is above this.
const MOST_ENTRY: u64 = 8191;

// The printed table, to be lent.
pub fn printed_roots() -> Roots
    ensures { result ≡ printed_roots }
{
    *own_table()
}

// The printed table where it stands.
fn own_table() -> &'static Roots
    ensures { result.now ≡ printed_roots }
{
    &ROOTS
}

// A few steps, where std's `isqrt` halves 32 times. The first guess is the mean of t and 65,536, and a guess whose square is too great goes
// down.
impl FindRoot for Newton {
    #[tactic(auto, using(crate::proofs::capacity::RootLaws::newton))]
    fn root_of(&self, t: Share) -> Share {
        let n = t.parts * ONE;
        let mut r = (ONE + t.parts) / 2;
        while n < r * r {
            r = (r + n / r) / 2;
        }
        Share { parts: r }
    }
}

// The table leads to the root or to one more; 65,536 has no entry.
impl FindRoot for Printed {
    #[tactic(auto, using(crate::proofs::roots::LeadLaws::led))]
    fn root_of(&self, t: Share) -> Share {
        if t.parts == ONE {
            return t;
        }
        let r = lead(own_table(), t.parts).unwrap();
        if t.parts * ONE < r * r {
            return Share { parts: r - 1 };
        }
        Share { parts: r }
    }
}

// By a table that is lent. Where that misleads, which the squares tell, it is by the printed one.
impl FindRoot for Roots {
    #[tactic(auto, using(crate::proofs::capacity::RootLaws::root_unique, crate::proofs::roots::LeadLaws::root_before))]
    fn root_of(&self, t: Share) -> Share {
        if t.parts < ONE {
            let n = t.parts * ONE;
            if let Some(r) = lead(self, t.parts) {
                if n < r * r {
                    let down = r - 1;
                    if down * down <= n {
                        return Share { parts: down };
                    }
                } else {
                    let up = r + 1;
                    if n < up * up {
                        return Share { parts: r };
                    }
                }
            }
        }
        Printed.root_of(t)
    }
}

// Where a table leads, if anywhere.
fn lead(roots: &Roots, t: u64) -> Option<u64>
    requires { t < one }
    ensures { Leads roots.now t result }
{
    if NEAR <= t {
        return near(roots, t);
    }
    if ENTRIES <= t {
        return Some(near(roots, t * 4)? / 2);
    }
    entry(roots, t)
}

// Newton's step from eight times the entry of t / 64.
fn near(roots: &Roots, t: u64) -> Option<u64>
    requires { (4096 ≤ t) × (t < one) }
    ensures { Leads roots.now t result }
{
    let r = entry(roots, t / 64)? * 8;
    let q = (t * ONE).checked_div(r)?;
    Some((r + q) / 2)
}

// An entry, where it is not above those of the printed table.
#[tactic(auto, using(crate::proofs::roots::LeadLaws::entry_most, crate::proofs::roots::LeadLaws::printed_at))]
fn entry(roots: &Roots, k: u64) -> Option<u64>
    requires { k < 1024 }
    ensures { Enters roots.now k result }
{
    let e = u64::from(roots[k as usize]);
    (e <= MOST_ENTRY).then_some(e)
}

// Power: document 01, "The capacity curve".
ghost use Rattle.std.specs.Prelude.{◌≡◌, ◌<◌};
ghost use Rattle.curve.specs.Capacity.{whole, part, power};

use crate::roots::FindRoot;
use crate::share::Share;

// A root is taken only where a lower bit of e needs it. No loop over the bits: roots and parts stand in a row, so that each line is the
// definition's.
#[tactic(auto, using(crate::proofs::capacity::PowerLaws::bits))]
pub fn power_of<R: FindRoot>(roots: &R, t: Share, e: u64) -> Share
    ensures { result ≡ power t e }
{
    let x = whole_of(t, e / 16);
    if e.is_multiple_of(16) {
        return x;
    }
    let r1 = roots.root_of(t);
    let x1 = part_of(e, 8, r1, x);
    if e.is_multiple_of(8) {
        return x1;
    }
    let r2 = roots.root_of(r1);
    let x2 = part_of(e, 4, r2, x1);
    if e.is_multiple_of(4) {
        return x2;
    }
    let r3 = roots.root_of(r2);
    let x3 = part_of(e, 2, r3, x2);
    if e.is_multiple_of(2) {
        return x3;
    }
    part_of(e, 1, roots.root_of(r3), x3)
}

// 65,536, k times multiplied by t and divided by 65,536.
#[tactic(auto, using(crate::proofs::capacity::PowerLaws::whole_none, crate::proofs::capacity::PowerLaws::whole_more))]
fn whole_of(t: Share, k: u64) -> Share
    ensures { result ≡ whole t k }
{
    let mut x = Share::one();
    for _ in 0..k {
        x = x.by(t);
    }
    x
}

// x times r over 65,536, where e mod 16 holds the bit b.
#[tactic(auto, unfolding(crate::specs::Capacity::part))]
fn part_of(e: u64, b: u64, r: Share, x: Share) -> Share
    requires { 0 < b }
    ensures { result ≡ part e b r x }
{
    if e % 16 / b % 2 == 1 { x.by(r) } else { x }
}

// Where the search of a least share begins. Wherever that is, it ends at the same share; from a near one it ends sooner.
ghost use Rattle.std.specs.Prelude.{◌*◌, ◌≤◌, ◌<◌};
ghost use Rattle.common.specs.Shares.{one};
ghost use Rattle.curve.specs.Capacity.{least_e, most_e};
ghost use Rattle.curve.specs.Workers.{log};

use common::shares::ONE;

// Logarithms are to base 2 and in parts of 2^24.
const LOG: u64 = 1 << 24;

// A share near the least with a Power of p at least. Without rounding it would be 65,536 * (p / 65,536)^(16 / e); Power rounds down at each
// factor but the first, for which the share is greater by 9/8 * 16 / e on the mean. With 3/16 more, cut to a whole number, most guesses are
// the share or one below it, and the search ends with the second trial.
pub fn share_of(p: u64, e: u64) -> u64
    requires { (least_e ≤ e) × (e ≤ most_e) }
    ensures { (0 < result) × (result < one) }
{
    if p == 0 {
        return 1;
    }
    if ONE <= p {
        return ONE - 1;
    }
    let turned = 16 * LOG / e;
    let factors = e / 16 - 1 + u64::from((e % 16).count_ones());
    let t = (antilog_of(scaled(log_of(p), turned)) + scaled(576 * factors, turned) + 96) / 512;
    t.clamp(1, ONE - 1)
}

// By how much the logarithm of p is below that of 65,536: the leading zeros of 16 bits, and -log2(1 - w / 2) for what is left, w from 0 to 1, by
// a polynomial that is off by 0.000003 at most.
fn log_of(p: u64) -> u64
    requires { p < one }
    ensures { result ≤ 18 * log }
{
    let zeros = u64::from((p as u16).leading_zeros());
    let w = LOG - (p << zeros) % 32768 * 512;
    let w2 = scaled(w, w);
    let high = 806046 + scaled(913259, w) - scaled(523229 - scaled(420979, w), w2);
    zeros * LOG + scaled(12100295 + scaled(3059833, w) + scaled(high, w2), w)
}

// 65,536 over 2 to the power v, in 512ths: 2 to the power g, g from 0 to 1, by a polynomial that is off by 0.000004 at most, halved as often as v
// is whole.
fn antilog_of(v: u64) -> u64
    requires { v ≤ 18 * log }
    ensures { result < 65536 * log }
{
    let g = LOG - v % LOG;
    let g2 = scaled(g, g);
    let high = 4054020 + scaled(867220, g) + scaled(229809, g2);
    (16777278 + scaled(11626042, g) + scaled(high, g2)) >> (v / LOG)
}

// x times s / 2^24.
fn scaled(x: u64, s: u64) -> u64
    requires { (x ≤ 18 * log) × (s ≤ log) }
    ensures { result ≤ x }
{
    x * s / LOG
}

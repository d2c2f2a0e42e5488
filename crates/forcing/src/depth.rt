// One number in millimetres: document 01, "The forcing list", and the depth call of "Who sent it", with document 02, No. 7.
ghost use Rattle.std.specs.Prelude.{◌≡◌, ◌^◌, false, Some, is_nan};
ghost use Rattle.std.specs.Float.{binary32};
ghost use Rattle.std.specs.Float.Ieee.{of_bits};
ghost use Rattle.forcing.specs.Depth.{limit_of, gauge_text, as_depth, depth_call, JudgedNumber};
ghost use Rattle.forcing.specs.Workers.{Scaled, of_fraction};

use common::refusal::Refusal;
use std::fmt;

// What a number is said to be: it decides the limit.
#[derive(Clone, Copy)]
pub enum Gauge {
    Rain,
    Pan,
}

impl Gauge {
    // The limit in millimetres.
    fn limit(self) -> u64
        ensures { result ≡ limit_of self }
    {
        match self {
            Gauge::Rain => 1000,
            Gauge::Pan => 100,
        }
    }
}

impl fmt::Display for Gauge {
    ghost output = { λ said. Some (gauge_text said) };

    fn fmt<W: fmt::Write>(&self, f: &mut fmt::Formatter<W>) -> fmt::Result {
        f.write_str(match self {
            Gauge::Rain => "rain",
            Gauge::Pan => "pan",
        })
    }
}

// The depth call on one number in millimetres, said to be rain or pan: the depth in µm.
pub fn depth_of(x: f32, said: Gauge) -> Result<u64, Refusal>
    ensures answered { as_depth result ≡ depth_call x said }
    ensures judged { JudgedNumber x said (as_depth result) }
{
    if x.is_nan() {
        return Err(Refusal::NotANumber);
    }
    judge_bits(x.to_bits(), said)
}

// Sign, exponent and fraction are taken from the 32 bits, by document 01's shifts and masks. The number is significand / 2^places: the
// fraction over 2^149 where the exponent is 0, and otherwise the fraction with a leading digit before it, over 2^(150 - exponent).
#[tactic(auto, using(crate::proofs::depth::ValueLaws::bits_laws))]
fn judge_bits(bits: u32, said: Gauge) -> Result<u64, Refusal>
    requires { is_nan (of_bits binary32 bits) ≡ false }
    ensures { as_depth result ≡ depth_call (of_bits binary32 bits) said }
{
    let exponent = (bits >> 23) & 0xff;
    let fraction = bits & 0x7f_ffff;
    if exponent == 0xff {
        return Err(Refusal::Infinite);
    }
    // Minus zero is zero.
    if bits == 0x8000_0000 {
        return Ok(0);
    }
    if bits >> 31 == 1 {
        return Err(Refusal::BelowZero);
    }
    if exponent == 0 {
        return scaled(fraction, 149, said);
    }
    // From 1,024 on, above any limit.
    if 136 < exponent {
        return Err(Refusal::AboveLimit);
    }
    scaled(0x80_0000 + fraction, 150 - exponent, said)
}

// The number significand / 2^places, by its limit.
#[tactic(auto, using(crate::proofs::depth::FractionLaws::scaled_laws))]
fn scaled(significand: u32, places: u32, said: Gauge) -> Result<u64, Refusal>
    requires { Scaled significand places }
    ensures { as_depth result ≡ of_fraction (limit_of said) significand (2 ^ places) }
{
    // Below half a µm.
    if 34 < places {
        return Ok(0);
    }
    let significand = u64::from(significand);
    if said.limit() << places < significand {
        return Err(Refusal::AboveLimit);
    }
    Ok((1000 * significand + (1 << (places - 1))) >> places)
}

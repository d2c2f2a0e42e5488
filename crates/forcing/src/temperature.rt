// An air temperature in degrees Celsius: document 02, No. 8.
ghost use Rattle.std.specs.Prelude.{◌≡◌, ◌^◌, nat_le, unsigned_abs};
ghost use Rattle.std.specs.Float.{binary32};
ghost use Rattle.std.specs.Float.Ieee.{of_bits};
ghost use Rattle.forcing.specs.Temperature.{signed, as_temperature, temperature_call, JudgedTemperature};
ghost use Rattle.forcing.specs.Workers.{Scaled, of_whole_fraction};

use common::refusal::Refusal;

// The temperature call on one number in degrees: the temperature in thousandths.
pub fn temperature_of(x: f32) -> Result<i64, Refusal>
    ensures answered { as_temperature result ≡ temperature_call x }
    ensures judged { JudgedTemperature x (as_temperature result) }
{
    if x.is_nan() {
        return Err(Refusal::BadTemperature);
    }
    judge_bits(x.to_bits())
}

// By exponent and fraction, as in `depth`, and by sign.
#[tactic(auto, using(crate::proofs::temperature::ValueLaws::bits_laws))]
fn judge_bits(bits: u32) -> Result<i64, Refusal>
    ensures { as_temperature result ≡ temperature_call (of_bits binary32 bits) }
{
    let exponent = (bits >> 23) & 0xff;
    let fraction = bits & 0x7f_ffff;
    if exponent == 0 {
        return scaled(signed(bits, fraction), 149);
    }
    // From 1,024 on, or infinite, or no number.
    if 136 < exponent {
        return Err(Refusal::BadTemperature);
    }
    scaled(signed(bits, 0x80_0000 + fraction), 150 - exponent)
}

// With the sign of a number's bits.
fn signed(bits: u32, magnitude: u32) -> i64
    ensures { result ≡ signed (nat_le 0x8000_0000 bits) magnitude }
{
    if bits < 0x8000_0000 {
        return i64::from(magnitude);
    }
    -i64::from(magnitude)
}

// The number significand / 2^places, by its range.
#[tactic(auto, using(crate::proofs::temperature::ValueLaws::scaled_laws))]
fn scaled(significand: i64, places: u32) -> Result<i64, Refusal>
    requires { Scaled (unsigned_abs significand) places }
    ensures { as_temperature result ≡ of_whole_fraction significand (2 ^ places) }
{
    // Less than half a thousandth.
    if 34 < places {
        return Ok(0);
    }
    let half = 1 << (places - 1);
    let degree = 2 * half;
    if significand < -80 * degree || 60 * degree < significand {
        return Err(Refusal::BadTemperature);
    }
    // A shift rounds down, of a number below zero too.
    Ok((1000 * significand + half) >> places)
}

ghost use Rattle.std.specs.Prelude.{◌≡◌, ◌≤◌, ◌↔◌, ◌^◌, unsigned_abs, IfOk, IsErr, Option, MatchOption, Ok, Err};
ghost use Rattle.base_fixed_point.specs.Conversion.{InType, nearest_at};
ghost use Rattle.base_fixed_point.specs.Conversion as rule;
ghost use Rattle.base_fixed_point.specs.Constants.{IsGainConstant, HasNoGainConstant};
ghost use Rattle.base_fixed_point.specs.Constants as constant;

use crate::conversion::{cast_into, scaled_up};
use crate::rounding::{floor, is_even, nearest};
use crate::types::{FixType, Over};
use base_core::{Decimal, NumFault};

/// A number in units of a type, to the nearest with ties up and within the type's range.
pub fn quantize(d: &Decimal, to: FixType) -> i64
    ensures value { result ≡ rule.quantize d.now to }
    ensures in_type { InType to result }
{
    cast_into(Over::Saturate, to, i128::from(nearest_within(d, to.frac)))
}

/// A gain's constant that finds its own type: a stored integer and its fraction bits.
///
/// It is the nearest integer, ties up, at the greatest number of fraction bits from 0 to 31 at which that fits 32 signed
/// bits, and then halved while it is even and has fraction bits. Fails with `Range` exactly where it fits at none.
pub fn gain_constant(d: &Decimal) -> Result<(i64, u8), NumFault>
    ensures value { result ≡ rule.gain_constant d.now }
    ensures constant { IfOk result (λ c. IsGainConstant d.now c.0 c.1) }
    ensures none { IsErr result ↔ HasNoGainConstant d.now }
{
    match constant_below(d, 32) {
        Some(constant) => Ok(constant),
        None => Err(NumFault::Range),
    }
}

// The same at the greatest number of fraction bits below a limit.
fn constant_below(d: &Decimal, limit: u8) -> Option<(i64, u8)>
    requires { limit ≤ 32 }
    ensures { MatchOption result (rule.constant_below limit d.now ≡ Err NumFault.Range)
        (λ c. rule.constant_below limit d.now ≡ Ok c) }
{
    for frac in (0..limit).rev() {
        let number = nearest_within(d, frac);
        if fits_32(number) {
            return Some(reduced(number, frac));
        }
    }
    None
}

// Whether a number lies in 32 signed bits.
fn fits_32(number: i64) -> bool
    ensures { result ≡ rule.fits_32 number }
{
    -(1 << 31) <= number && number < 1 << 31
}

// The same number in an odd integer, or without fraction bits.
fn reduced(number: i64, frac: u8) -> (i64, u8)
    requires { unsigned_abs number ≤ 2 ^ 40 }
    ensures { result ≡ rule.reduced_constant frac number }
{
    let mut odd = i128::from(number);
    let mut left = frac;
    while left > 0 && is_even(odd) {
        odd = floor(odd, 2);
        left -= 1;
    }
    (odd as i64, left)
}

// How far from 0 the nearest integers are told apart, and how far the whole part of a number may be for that.
const END: i64 = 1 << 40;

const FAR: i128 = 1 << 41;

// The integer nearest to a number in units of 2^-frac, or the nearer end of -2^40 to 2^40 where it is outside.
fn nearest_within(d: &Decimal, frac: u8) -> i64
    requires { frac ≤ 31 }
    ensures { result ≡ constant.capped (nearest_at d.now frac) }
{
    let whole = floor(d.num, d.den);
    if whole < -FAR {
        return -END;
    }
    if whole > FAR {
        return END;
    }
    let rest = d.num.rem_euclid(d.den as i128);
    capped(scaled_up(whole, frac) + nearest(scaled_up(rest, frac), d.den))
}

// The number, or the nearer end of -2^40 to 2^40 where it is outside.
fn capped(number: i128) -> i64
    ensures { result ≡ constant.capped number }
{
    let end = i128::from(END);
    if number < -end {
        -END
    } else if end < number {
        END
    } else {
        number as i64
    }
}

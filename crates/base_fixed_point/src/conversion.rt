ghost use Rattle.std.specs.Prelude.{◌≡◌, ◌^◌, ◌<◌, ◌≤◌, ◌*ℤ◌, pos, unsigned_abs};
ghost use Rattle.base_fixed_point.specs.Conversion.{InType, IsConverted, conv};
ghost use Rattle.base_fixed_point.specs.Conversion as rule;

use crate::range::{greatest, least};
use crate::rounding::rounded;
use crate::types::{FixType, Over, Round};

/// Brings a number into a type: `v`, which stands for itself times 2^-from_frac, is rounded by `r` to a whole number of the
/// type's units of 2^-frac, and that is brought into its range by `o` (Simulink reference, fixed-point casts).
pub fn convert(v: i128, from_frac: u8, to: FixType, r: Round, o: Over) -> i64
    requires v { unsigned_abs v ≤ 2 ^ 62 }
    requires from_frac { from_frac ≤ 93 }
    ensures value { result ≡ conv v from_frac to r o }
    ensures converted { IsConverted v from_frac to r o result }
    ensures in_type { InType to result }
{
    let over = scaled_up(v, to.frac.saturating_sub(from_frac));
    let under = power_of_two(from_frac.saturating_sub(to.frac));
    cast_into(o, to, rounded(r, over, under))
}

// A number times 2 to the given power.
pub(crate) fn scaled_up(v: i128, exponent: u8) -> i128
    requires v { unsigned_abs v ≤ 2 ^ 62 }
    requires exponent { exponent ≤ 31 }
    ensures value { result ≡ v *ℤ pos (2 ^ exponent) }
    ensures bound { unsigned_abs result ≤ 2 ^ 93 }
{
    v * power_of_two(exponent) as i128
}

// 2 to the given power.
#[tactic(auto, using(crate::proofs::PowerLaws::power_bound))]
fn power_of_two(exponent: u8) -> u128
    requires { exponent ≤ 93 }
    ensures value { result ≡ 2 ^ exponent }
    ensures some { 0 < result }
    ensures bound { result ≤ 2 ^ 93 }
{
    1 << exponent
}

// A whole number brought into the range of a type.
pub(crate) fn cast_into(o: Over, t: FixType, q: i128) -> i64
    requires { unsigned_abs q ≤ 2 ^ 120 }
    ensures value { result ≡ rule.cast_into o t q }
    ensures in_type { InType t result }
{
    match o {
        Over::Saturate => clamped(t, q),
        Over::Wrap => wrapped(t, q),
    }
}

// The number, or the nearer end of the range where it is outside.
fn clamped(t: FixType, q: i128) -> i64
    ensures { result ≡ rule.clamped t q }
{
    let low = least(t);
    let high = greatest(t);
    if q < i128::from(low) {
        low
    } else if i128::from(high) < q {
        high
    } else {
        q as i64
    }
}

// The number of the range that differs by a multiple of 2^bits.
fn wrapped(t: FixType, q: i128) -> i64
    requires { unsigned_abs q ≤ 2 ^ 120 }
    ensures { result ≡ rule.wrapped t q }
{
    let low = i128::from(least(t));
    let values = power_of_two(t.bits) as i128;
    (low + (q - low).rem_euclid(values)) as i64
}

ghost use Rattle.std.specs.Prelude.{◌≡◌, ◌+◌, ◌<◌, ◌≤◌, ◌^◌, length, map, sum};
ghost use Rattle.diagram_blocks.specs.Limits.{HasInputTypes, IsWithinLimits};
ghost use Rattle.diagram_blocks.specs.Width as width;

use crate::gain::gain_of;
use crate::kind::Kind;
use base_fixed_point::FixType;

/// The bits of a type's magnitudes: one less than its width where it has a sign.
pub(crate) fn magnitude_bits(t: FixType) -> u32
    ensures value { result ≡ width.magnitude_bits t }
    ensures bound { result ≤ 32 }
{
    let bits = u32::from(t.bits);
    if t.signed { bits - 1 } else { bits }
}

/// The least b with n at most 2^b.
pub(crate) fn power_bits(n: u64) -> u32
    ensures value { result ≡ width.power_bits n }
    ensures bound { result ≤ 64 }
{
    let mut bits = 0;
    let mut power: u128 = 1;
    while power < u128::from(n) {
        power *= 2;
        bits += 1;
    }
    bits
}

/// The bits of an exact number of this many bits and `frac` fraction bits, with those of its conversion.
pub(crate) fn conversion_bits(bits: u32, frac: u32, out: FixType) -> u32
    requires { bits < 2 ^ 16 }
    ensures { result ≡ width.conversion_bits bits frac out }
{
    let out_frac = u32::from(out.frac);
    (bits + out_frac.saturating_sub(frac)).max(frac.saturating_sub(out_frac))
}

/// The greatest number of fraction bits of the inputs.
#[tactic(auto, using(crate::proofs::Widths::greatest_more))]
pub(crate) fn common_frac(inputs: &[FixType]) -> u32
    ensures value { result ≡ width.common_frac inputs.now }
    ensures bound { result ≤ 31 }
{
    let mut most = 0;
    for t in inputs {
        most = u32::from(t.frac).max(most);
    }
    most
}

/// The bits of the greatest input, in units of 2^-frac.
#[tactic(auto, using(crate::proofs::Widths::greatest_more))]
pub(crate) fn common_bits(inputs: &[FixType], frac: u32) -> u32
    requires { frac ≤ 31 }
    ensures value { result ≡ width.common_bits inputs.now frac }
    ensures bound { result ≤ 63 }
{
    let mut most = 0;
    for t in inputs {
        let bits = magnitude_bits(*t) + frac.saturating_sub(u32::from(t.frac));
        most = bits.max(most);
    }
    most
}

/// The bits of all inputs together.
pub(crate) fn total_bits(inputs: &[FixType]) -> u32
    requires { length inputs.now ≤ 16 }
    ensures { result ≡ sum (map width.magnitude_bits inputs.now) }
{
    inputs.iter().map(|t| magnitude_bits(*t)).sum()
}

/// The fraction bits of all inputs together.
pub(crate) fn total_frac(inputs: &[FixType]) -> u16
    requires { length inputs.now ≤ 16 }
    ensures { result ≡ sum (map (λ t. t.frac) inputs.now) }
{
    inputs.iter().map(|t| u16::from(t.frac)).sum()
}

/// The bits of one input brought into the row's type.
fn input_bits(input: FixType, out: FixType) -> u32
    ensures { result ≡ width.conversion_bits (width.magnitude_bits input) input.frac out }
{
    conversion_bits(magnitude_bits(input), u32::from(input.frac), out)
}

/// The bits that a row needs for the magnitudes of its exact numbers, with those of their conversion. A row with more
/// than 62 is refused.
///
/// The types are those of the row's inputs and its own one.
pub fn wide_bits(k: &Kind, inputs: &[FixType], out: FixType) -> u32
    requires has_types { HasInputTypes k.now inputs.now }
    requires within_limits { IsWithinLimits k.now }
    ensures { result ≡ width.wide_bits k.now inputs.now out }
{
    match k {
        Kind::Gain { gain, .. } => {
            let (m, frac) = gain_of(gain);
            let bits = magnitude_bits(inputs[0]) + power_bits(m.unsigned_abs());
            conversion_bits(bits, u32::from(inputs[0].frac) + u32::from(frac), out)
        }
        Kind::Sum { count, .. } => {
            let frac = common_frac(inputs);
            let bits = common_bits(inputs, frac) + power_bits(u64::from(*count));
            conversion_bits(bits, frac, out)
        }
        Kind::Product { .. } => conversion_bits(
            total_bits(inputs),
            u32::from(total_frac(inputs)),
            out,
        ),
        Kind::Switch { .. } => input_bits(inputs[0], out).max(input_bits(inputs[2], out)),
        Kind::Convert(_) => input_bits(inputs[0], out),
        Kind::Relational(_) => common_bits(inputs, common_frac(inputs)),
        _ => 0,
    }
}

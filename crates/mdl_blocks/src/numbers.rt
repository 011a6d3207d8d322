ghost use Rattle.std.specs.Prelude.{◌≡◌, ◌<◌, ◌≤◌, ◌^◌, IfSome, option_map};
ghost use Rattle.base_numerals.specs.Literals.{ratio_of};
ghost use Rattle.base_fixed_point.specs.Rounding.{nearest, floor_div};
ghost use Rattle.base_fixed_point.specs.Conversion.{fits_32};
ghost use Rattle.mdl_blocks.specs.Words as words;
ghost use Rattle.mdl_blocks.specs.Blocks as blocks;

use base_core::Decimal;
use mdl_params::number;

/// The most samples that a delay remembers.
const MOST_SAMPLES: u32 = 65_535;

/// The number that a text writes, if it writes one.
pub(crate) fn number_in(text: &[u8]) -> Option<Decimal>
    ensures { option_map ratio_of result ≡ words.number_in text.now }
{
    number(text).ok()
}

/// The whole number, not below 0, that a text writes, if it writes one.
fn whole_number(text: &[u8]) -> Option<u128>
    ensures { result ≡ words.whole_number text.now }
{
    let value = number_in(text)?;
    if value.den == 1 && value.num >= 0 {
        Some(value.num as u128)
    } else {
        None
    }
}

/// The whole number from 1 up to a greatest one that a text writes, if it writes one.
pub fn number_up_to(most: u32, text: &[u8]) -> Option<u32>
    ensures value { result ≡ words.number_up_to most text.now }
    ensures bound { IfSome result (λ n. n ≤ most) }
{
    let value = whole_number(text)?;
    if value >= 1 && value <= u128::from(most) {
        Some(value as u32)
    } else {
        None
    }
}

/// How many samples a delay remembers, by the text of its length.
pub(crate) fn samples_in(text: &[u8]) -> Option<u32>
    ensures { result ≡ words.samples_in text.now }
{
    number_up_to(MOST_SAMPLES, text)
}

/// Whether a text is the number -1.
pub(crate) fn writes_minus_one(text: &[u8]) -> bool
    ensures { result ≡ words.writes_minus_one text.now }
{
    match number_in(text) {
        Some(value) => value.num == -1 && value.den == 1,
        None => false,
    }
}

/// Whether a signal has one element, by the text of its dimensions: -1 or 1.
pub(crate) fn is_single(text: &[u8]) -> bool
    ensures { result ≡ blocks.is_single text.now }
{
    writes_minus_one(text) || number_up_to(1, text).is_some()
}

/// The factor of a gain: a number whose nearest whole one fits 32 bits with a sign.
pub(crate) fn factor_in(text: &[u8]) -> Option<Decimal>
    ensures { option_map ratio_of result ≡ words.factor_in text.now }
{
    let value = number_in(text)?;
    if is_factor(&value) { Some(value) } else { None }
}

/// Whether the nearest whole number fits 32 bits with a sign.
fn is_factor(value: &Decimal) -> bool
    ensures { result ≡ fits_32 (nearest value.now.num value.now.den) }
{
    let whole = nearest_whole(value);
    -(1 << 31) <= whole && whole < 1 << 31
}

/// The nearest whole number, and of two equally near the upper one.
fn nearest_whole(value: &Decimal) -> i128
    ensures { result ≡ nearest value.now.num value.now.den }
{
    floor(2 * value.num + value.den as i128, 2 * value.den)
}

/// The greatest whole number that isn't above n / d.
fn floor(n: i128, d: u128) -> i128
    requires some { 0 < d }
    requires d { d ≤ 2 ^ 120 }
    ensures { result ≡ floor_div n d }
{
    n.div_euclid(d as i128)
}

/// An initial output: a number, or `[]`, which is 0.
pub(crate) fn initial_output_in(text: &[u8]) -> Option<Decimal>
    ensures { option_map ratio_of result ≡ words.initial_output_in text.now }
{
    if text == b"[]".as_slice() {
        Some(Decimal { num: 0, den: 1 })
    } else {
        number_in(text)
    }
}

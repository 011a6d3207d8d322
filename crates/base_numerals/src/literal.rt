ghost use Rattle.std.specs.Prelude.{◌≡◌, ◌^◌, ◌<◌, ◌≤◌, Some, None, MatchOption, unsigned_abs, IfSome, true};
ghost use Rattle.std.specs.Str.Parse.{starts_with_minus, without_leading_sign};
ghost use Rattle.base_numerals.specs.Literals as literal;
ghost use Rattle.base_numerals.specs.Literals.{ReadsAs, are_digits, ratio_of, number_value, plain_value, unsigned_value, with_exponent, quotient_value, exponent_of, in_lowest_terms, with_sign};

use crate::digits::{
    append_digits, is_numeral, significant_len, significant_len_of_both, split_digits,
    value_of_both,
};
use base_core::{Decimal, NumFault, gcd, trim};

// How many significant digits a digit string has at most, and what the exponent is at most, up or down.
const LIMIT: usize = 18;

/// The exact value of a number's text.
///
/// A number is an optional sign and digits, with an optional point among or beside them and an optional exponent;
/// or an optional sign and a quotient of two digit strings; or `true` or `false`, which are 1 and 0; or one of these
/// between `[` and `]`. Blanks at both ends don't count.
///
/// Fails with `Form` where the text is none of these, and else with `Range` where a digit string has more than 18
/// significant digits, or the exponent, less the digits after the point, lies beyond -18 to 18. A number 0 has
/// any exponent of up to 18 digits.
pub fn read_decimal(text: &[u8]) -> Result<Decimal, NumFault>
    ensures { ReadsAs result (number_value text.now) }
{
    read_plain(without_brackets(trim(text)))
}

// What is between `[` and `]`, or the text itself.
fn without_brackets(text: &[u8]) -> &[u8]
    ensures { result.now ≡ literal.without_brackets text.now }
{
    match text {
        [b'[', inner @ .., b']'] => inner,
        _ => text,
    }
}

/// The exact value of a number's text without brackets round it or blanks at its ends, as `read_decimal` gives it.
pub fn read_plain(text: &[u8]) -> Result<Decimal, NumFault>
    ensures { ReadsAs result (plain_value text.now) }
{
    if text == b"true".as_slice() {
        return Ok(lowest_terms(false, 1, 1));
    }
    if text == b"false".as_slice() {
        return Ok(lowest_terms(false, 0, 1));
    }
    let (negative, digits) = split_sign(text);
    read_unsigned(negative, digits)
}

// Whether the text begins with a minus, and what follows a leading sign.
fn split_sign(text: &[u8]) -> (bool, &[u8])
    ensures minus { result.0 ≡ starts_with_minus text.now }
    ensures rest { result.1.now ≡ without_leading_sign text.now }
{
    match text {
        [b'-', rest @ ..] => (true, rest),
        [b'+', rest @ ..] => (false, rest),
        _ => (false, text),
    }
}

fn read_unsigned(negative: bool, text: &[u8]) -> Result<Decimal, NumFault>
    ensures { ReadsAs result (unsigned_value negative text.now) }
{
    let (before, rest) = split_digits(text);
    match rest {
        [b'/', under @ ..] => read_quotient(negative, before, under),
        [b'.', rest @ ..] => {
            let (behind, rest) = split_digits(rest);
            read_point(negative, before, behind, rest)
        }
        _ => read_point(negative, before, &[], rest),
    }
}

// The number with these digits over those.
#[tactic(auto, using(crate::proofs::lemmas::NumberBounds::short_value, crate::proofs::lemmas::NumberBounds::positive_value, crate::proofs::lemmas::NumberBounds::numeral_digits))]
fn read_quotient(negative: bool, over: &[u8], under: &[u8]) -> Result<Decimal, NumFault>
    requires { are_digits over.now ≡ true }
    ensures { ReadsAs result (quotient_value negative over.now under.now) }
{
    if over.is_empty() || !is_numeral(under) || significant_len(under) == 0 {
        return Err(NumFault::Form);
    }
    if significant_len(over) > LIMIT || significant_len(under) > LIMIT {
        return Err(NumFault::Range);
    }
    let num = append_digits(0, over);
    let den = append_digits(0, under);
    Ok(lowest_terms(negative, u128::from(num), den))
}

// The number with these digits before and after its point, where `rest` is the text of its exponent.
fn read_point(
    negative: bool,
    before: &[u8],
    behind: &[u8],
    rest: &[u8],
) -> Result<Decimal, NumFault>
    requires before { are_digits before.now ≡ true }
    requires behind { are_digits behind.now ≡ true }
    ensures { ReadsAs result (with_exponent negative before.now behind.now (exponent_of rest.now)) }
{
    match read_exponent(rest) {
        Some((down, exponent)) if !before.is_empty() || !behind.is_empty() => {
            point_value(negative, before, behind, down, exponent)
        }
        _ => Err(NumFault::Form),
    }
}

// The same, by whether the exponent is negative, and its digits.
#[tactic(auto, using(crate::proofs::lemmas::NumberBounds::short_value))]
fn point_value(
    negative: bool,
    before: &[u8],
    behind: &[u8],
    down: bool,
    exponent: &[u8],
) -> Result<Decimal, NumFault>
    requires before { are_digits before.now ≡ true }
    requires behind { are_digits behind.now ≡ true }
    requires exponent { are_digits exponent.now ≡ true }
    ensures { ReadsAs result (literal.point_value negative before.now behind.now
        (record { negative = down; digits = exponent.now })) }
{
    let digits = significant_len_of_both(before, behind);
    if digits == 0 {
        return if exponent.len() <= LIMIT {
            Ok(lowest_terms(false, 0, 1))
        } else {
            Err(NumFault::Range)
        };
    }
    if digits > LIMIT || significant_len(exponent) > LIMIT {
        return Err(NumFault::Range);
    }
    let power = signed(down, u128::from(append_digits(0, exponent))) - behind.len() as i128;
    if power.unsigned_abs() > LIMIT as u128 {
        return Err(NumFault::Range);
    }
    Ok(times_power_of_ten(negative, value_of_both(before, behind), power))
}

// Whether the exponent is negative, and its digits, of which there are none where it isn't written.
fn read_exponent(rest: &[u8]) -> Option<(bool, &[u8])>
    ensures value { MatchOption result (exponent_of rest.now ≡ None)
        (λ e. exponent_of rest.now ≡ Some (record { negative = e.0; digits = e.1.now })) }
    ensures all { IfSome result (λ e. are_digits e.1.now ≡ true) }
{
    match rest {
        [] => Some((false, &[])),
        [b'e' | b'E', rest @ ..] => {
            let (down, digits) = split_sign(rest);
            if is_numeral(digits) {
                Some((down, digits))
            } else {
                None
            }
        }
        _ => None,
    }
}

fn power_of_ten(exponent: u32) -> u64
    requires { exponent ≤ 18 }
    ensures value { result ≡ 10 ^ exponent }
    ensures some { 0 < result }
    ensures bound { result ≤ 10 ^ 18 }
{
    10u64.pow(exponent)
}

// A number times 10 to the given power.
#[tactic(auto, using(crate::proofs::lemmas::NumberBounds::product_bound))]
fn times_power_of_ten(negative: bool, number: u64, power: i128) -> Decimal
    requires number { number < 10 ^ 18 }
    requires power { unsigned_abs power ≤ 18 }
    ensures { ratio_of result ≡ literal.times_power_of_ten negative number power }
{
    let factor = power_of_ten(power.unsigned_abs() as u32);
    if power < 0 {
        lowest_terms(negative, u128::from(number), factor)
    } else {
        lowest_terms(negative, u128::from(number) * u128::from(factor), 1)
    }
}

// The number of this magnitude, which is negative or not.
fn signed(negative: bool, magnitude: u128) -> i128
    requires { magnitude ≤ 10 ^ 36 }
    ensures { result ≡ with_sign negative magnitude }
{
    let number = magnitude as i128;
    if negative { -number } else { number }
}

// A fraction in lowest terms.
fn lowest_terms(negative: bool, num: u128, den: u64) -> Decimal
    requires num { num ≤ 10 ^ 36 }
    requires some { 0 < den }
    requires den { den ≤ 10 ^ 18 }
    ensures { ratio_of result ≡ in_lowest_terms (with_sign negative num) den }
{
    let den = u128::from(den);
    let divisor = u128::from(gcd(den as u64, (num % den) as u64));
    Decimal {
        num: signed(negative, num / divisor),
        den: den / divisor,
    }
}

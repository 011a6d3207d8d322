ghost use Rattle.std.specs.Prelude.{◌≡◌, ◌≤◌, ◌-◌, ◌^◌, ◌+ℤ◌, ◌*ℤ◌, ◌<◌, ◌==◌, int_le, length, pos};
ghost use Rattle.std.specs.Int.{bit_at, int_min, int_max};
ghost use Rattle.diagram_blocks.specs.Value.{signed_term};
ghost use Rattle.base_fixed_point.specs.Conversion.{over_units};
ghost use Rattle.emit_row_code.specs.Ranges as rule;

use base_fixed_point::{FixType, greatest, least};

/// The numbers from a least one to a greatest one.
#[derive(Clone, Copy, Drop)]
pub(crate) struct Range {
    pub(crate) least: i64,
    pub(crate) greatest: i64,
}

/// 64 bits hold a number.
fn fits_64(v: i128) -> bool
    ensures { result ≡ rule.fits_64 v }
{
    -(1 << 63) <= v && v < 1 << 63
}

/// The numbers from one to another, where 64 bits hold both.
fn range_from(low: i128, high: i128) -> Option<Range>
    ensures { result ≡ rule.range_from low high }
{
    if fits_64(low) && fits_64(high) {
        Some(Range {
            least: low as i64,
            greatest: high as i64,
        })
    } else {
        None
    }
}

/// One number.
fn just(v: i64) -> Option<Range>
    ensures { result ≡ rule.just v }
{
    Some(Range {
        least: v,
        greatest: v,
    })
}

/// The numbers of an input, by its place, where its type is known.
pub(crate) fn input_range(types: &[FixType], place: usize) -> Option<Range>
    ensures { result ≡ rule.input_range types.now place }
{
    match types.get(place) {
        Some(t) => Some(Range {
            least: least(*t),
            greatest: greatest(*t),
        }),
        None => None,
    }
}

/// The sum of two numbers.
fn total(a: i64, b: i64) -> i128
    ensures { result ≡ a +ℤ b }
{
    i128::from(a) + i128::from(b)
}

/// Sums of two numbers.
fn added(a: Option<Range>, b: Option<Range>) -> Option<Range>
    ensures { result ≡ rule.added a b }
{
    match (a, b) {
        (Some(a), Some(b)) => {
            let low = total(a.least, b.least);
            let high = total(a.greatest, b.greatest);
            range_from(low, high)
        }
        _ => None,
    }
}

/// The product of two numbers.
fn product(a: i64, b: i64) -> i128
    ensures { result ≡ a *ℤ b }
{
    i128::from(a) * i128::from(b)
}

/// The lesser of two numbers.
fn lesser(a: i128, b: i128) -> i128
    ensures { result ≡ int_min a b }
{
    if b < a { b } else { a }
}

/// The greater of two numbers.
fn greater(a: i128, b: i128) -> i128
    ensures { result ≡ int_max a b }
{
    if b < a { a } else { b }
}

/// Products of two numbers, which lie between those of the ends.
fn multiplied(a: Option<Range>, b: Option<Range>) -> Option<Range>
    ensures { result ≡ rule.multiplied a b }
{
    match (a, b) {
        (Some(a), Some(b)) => {
            let w = product(a.least, b.least);
            let x = product(a.least, b.greatest);
            let y = product(a.greatest, b.least);
            let z = product(a.greatest, b.greatest);
            let low = lesser(w, x);
            let least = lesser(low, lesser(y, z));
            let high = greater(w, x);
            let most = greater(high, greater(y, z));
            range_from(least, most)
        }
        _ => None,
    }
}

/// The first input times a constant.
pub(crate) fn gain_range(m: i64, types: &[FixType]) -> Option<Range>
    ensures { result ≡ rule.gain_range m types.now }
{
    multiplied(input_range(types, 0), just(m))
}

/// A unit of so many bits, with its sign.
fn factor(minus: bool, bits: u32) -> i64
    requires { bits ≤ 62 }
    ensures { result ≡ signed_term minus (pos (2 ^ bits)) }
{
    if minus { -(1 << bits) } else { 1 << bits }
}

/// What a term of a sum is multiplied by in the unit of 2^-common; bit `place` of `minus` subtracts it.
fn term_factor(minus: u32, common: u8, place: usize, frac: u8) -> i64
    requires place { place < 16 }
    requires unit { common ≤ 31 }
    ensures { result ≡ signed_term (bit_at minus place == 1) (pos (2 ^ (common - frac))) }
{
    factor(
        (minus >> place) & 1 == 1,
        u32::from(common.saturating_sub(frac)),
    )
}

/// The term of a sum for an input of `frac` fraction bits, in the unit of 2^-common; bit `place` of `minus` subtracts it.
fn term_range(minus: u32, common: u8, place: usize, frac: u8, types: &[FixType]) -> Option<Range>
    requires place { place < 16 }
    requires unit { common ≤ 31 }
    ensures { result ≡ rule.term_range minus common place frac types.now }
{
    let factor = term_factor(minus, common, place, frac);
    multiplied(input_range(types, place), just(factor))
}

/// The sum of inputs of so many fraction bits, in the finest of their units; bit i of `minus` subtracts input i + 1.
#[tactic(auto, using(crate::proofs::RangeSteps::sum_more))]
pub(crate) fn sum_range(minus: u32, common: u8, fracs: &[u8], types: &[FixType]) -> Option<Range>
    requires few { length fracs.now ≤ 16 }
    requires unit { common ≤ 31 }
    ensures { result ≡ rule.sum_range minus common 0 fracs.now types.now (rule.just (pos 0)) }
{
    let mut total = just(0);
    for (i, frac) in fracs.iter().enumerate() {
        total = added(total, term_range(minus, common, i, *frac, types));
    }
    total
}

/// The product of the first inputs.
pub(crate) fn product_range(count: u8, types: &[FixType]) -> Option<Range>
    ensures { result ≡ rule.product_range count types.now }
{
    let mut whole = just(1);
    for i in 0..usize::from(count) {
        whole = multiplied(whole, input_range(types, i));
    }
    whole
}

/// A number of `frac` fraction bits in the finer unit of 2^-unit; it stays where that is coarser.
fn in_unit(v: i64, frac: u32, unit: u32) -> i128
    requires { unit - frac ≤ 62 }
    ensures { result ≡ over_units v frac unit }
{
    product(v, 1 << unit.saturating_sub(frac))
}

/// A number of `frac` fraction bits is at most another one of `unit`.
fn is_at_most(a: i64, frac: u32, b: i64, unit: u32) -> bool
    requires up { unit - frac ≤ 62 }
    requires down { frac - unit ≤ 62 }
    ensures { result ≡ int_le (over_units a frac unit) (over_units b unit frac) }
{
    in_unit(a, frac, unit) <= in_unit(b, unit, frac)
}

/// A type holds each number of a range, of `frac` fraction bits, and so each that these are rounded to.
fn holds(to: FixType, frac: u32, range: Range) -> bool
    requires { frac - to.frac ≤ 62 }
    ensures { result ≡ rule.holds to frac range }
{
    let unit = u32::from(to.frac);
    is_at_most(least(to), unit, range.least, frac)
        && is_at_most(range.greatest, frac, greatest(to), unit)
}

/// This is known.
pub(crate) fn surely_holds(to: FixType, frac: u32, range: Option<Range>) -> bool
    requires { frac - to.frac ≤ 62 }
    ensures { result ≡ rule.surely_holds to frac range }
{
    match range {
        Some(range) => holds(to, frac, range),
        None => false,
    }
}

ghost use Rattle.std.specs.Prelude.{◌≡◌, ◌≤◌, length, not};
ghost use Rattle.std.specs.Option.{option_copied};
ghost use Rattle.base_core.specs.Bytes.{drop_while};
ghost use Rattle.std.specs.List.{list_any, prefix_len};
ghost use Rattle.base_numerals.specs.Literals.{ratio_of, parts_of};
ghost use Rattle.mdl_params.specs.Times as time;
ghost use Rattle.mdl_params.specs.Times.{ReadsTimeAs, time_form, time_by_values, is_separator, behind_separator};

use crate::fault::ParamFault;
use base_core::{Decimal, Frac, TimeText, is_blank, trim};
use base_numerals::{frac_of, read_decimal, read_plain};

/// The sample time that a text writes.
///
/// A sample time is a number p, or a pair `[p o]`, `[p, o]` or `[p,o]` of numbers without brackets round each:
/// a period and an offset, in the units of the model, with parts up to 10^9 and 0 <= o < p. `-1`, `[-1 0]` and
/// `[-1, 0]` are inherited, and `inf`, `Inf` and `[inf 0]` are constant. Blanks at both ends don't count.
///
/// Fails with `Continuous` exactly at the number 0 and at a pair of numbers whose period is 0, and with `Parameter` at any
/// other text.
pub fn sample_time(text: &[u8]) -> Result<TimeText, ParamFault>
    ensures { ReadsTimeAs result (time_form text.now) }
{
    let text = trim(text);
    if is_inherited(text) {
        return Ok(TimeText::Inherit);
    }
    if is_constant(text) {
        return Ok(TimeText::Constant);
    }
    match pair_text(text) {
        Some(pair) => read_pair(pair),
        None => {
            let period = read_decimal(text).map_err(|_| ParamFault::Parameter)?;
            time_of(&period, &Decimal { num: 0, den: 1 })
        }
    }
}

fn is_inherited(text: &[u8]) -> bool
    ensures { result ≡ time.is_inherited text.now }
{
    text == b"-1".as_slice() || text == b"[-1 0]".as_slice() || text == b"[-1, 0]".as_slice()
}

fn is_constant(text: &[u8]) -> bool
    ensures { result ≡ time.is_constant text.now }
{
    text == b"inf".as_slice() || text == b"Inf".as_slice() || text == b"[inf 0]".as_slice()
}

/// Whether a byte can be between two numbers.
fn is_separator(byte: u8) -> bool
    ensures { result ≡ is_separator byte }
{
    is_blank(byte) || byte == b','
}

fn between_brackets(text: &[u8]) -> Option<&[u8]>
    ensures { option_copied result ≡ time.between_brackets text.now }
{
    match text {
        [b'[', inside @ .., b']'] => Some(inside),
        _ => None,
    }
}

/// The text between the brackets of a pair.
fn pair_text(text: &[u8]) -> Option<&[u8]>
    ensures { option_copied result ≡ time.pair_text text.now }
{
    let inside = between_brackets(text)?;
    if has_separator(inside) {
        Some(inside)
    } else {
        None
    }
}

fn has_separator(text: &[u8]) -> bool
    ensures { result ≡ list_any is_separator text.now }
{
    text.iter().any(|byte| is_separator(*byte))
}

/// How many bytes are in front of the first separator.
fn number_len(text: &[u8]) -> usize
    ensures value { result ≡ prefix_len (λ c. not (is_separator c)) text.now }
    ensures within { result ≤ length text.now }
{
    text.iter().take_while(|byte| !is_separator(**byte)).count()
}

/// What is after a separator at the front.
fn behind_separator(text: &[u8]) -> Option<&[u8]>
    ensures { option_copied result ≡ behind_separator text.now }
{
    match text {
        [b',', b' ', rest @ ..] | [b',' | b' ', rest @ ..] => Some(rest),
        _ => None,
    }
}

/// The sample time of a pair, by the text between its brackets.
fn read_pair(pair: &[u8]) -> Result<TimeText, ParamFault>
    ensures { ReadsTimeAs result (time.pair_time pair.now) }
{
    let (period, rest) = pair.split_at(number_len(pair));
    let offset = behind_separator(rest).ok_or(ParamFault::Parameter)?;
    let period = read_plain(period).map_err(|_| ParamFault::Parameter)?;
    let offset = read_plain(offset).map_err(|_| ParamFault::Parameter)?;
    time_of(&period, &offset)
}

/// The sample time of a period and an offset.
fn time_of(period: &Decimal, offset: &Decimal) -> Result<TimeText, ParamFault>
    ensures { ReadsTimeAs result (time_by_values (ratio_of period.now) (ratio_of offset.now)) }
{
    if period.num == 0 {
        return Err(ParamFault::Continuous);
    }
    let period = frac_of(period).map_err(|_| ParamFault::Parameter)?;
    let offset = frac_of(offset).map_err(|_| ParamFault::Parameter)?;
    if !is_below(&offset, &period) {
        return Err(ParamFault::Parameter);
    }
    Ok(TimeText::Each { period, offset })
}

fn is_below(a: &Frac, b: &Frac) -> bool
    ensures { result ≡ time.is_below (parts_of a.now) (parts_of b.now) }
{
    u128::from(a.num) * u128::from(b.den) < u128::from(b.num) * u128::from(a.den)
}

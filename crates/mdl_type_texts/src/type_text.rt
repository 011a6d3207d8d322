ghost use Rattle.std.specs.Prelude.{◌≡◌, ◌-◌, ◌<◌, true, false, MatchOption, option_map, drop, take, length};
ghost use Rattle.std.specs.List.{position_or_len, before_first, after_first};
ghost use Rattle.base_fixed_point.specs.Profile.{InProfile};
ghost use Rattle.mdl_type_texts.specs.TypeTexts as text_of;
ghost use Rattle.mdl_type_texts.specs.TypeTexts.{ReadsTypeAs, format_of, meaning_of, type_meaning, named_format, integer_format, inherited_meaning, fixdt_meaning, format_meaning, sign_of, is_comma, is_fixdt};

use base_core::trim;
use base_fixed_point::{FixType, TypeFault, TypeText};
use base_numerals::{capped_number, is_numeral};

/// What a type's text means.
///
/// A type is `int8`, `int16`, `int32`, `uint8`, `uint16`, `uint32` or `boolean`; or `fixdt(s,w,f)` with a sign `0`, `1`,
/// `true` or `false`, a width and a fraction length; or a text that begins `Inherit:`. Blanks at both ends, and round
/// each part of a `fixdt`, don't count.
///
/// Fails with `Float` exactly at `double`, `single` and `half`, with `Range` at a `fixdt` of whole numbers whose width
/// isn't 1 to 32 (2 to 32 with a sign) or whose fraction length is above 31, and with `Form` at any other text.
pub fn read_type(text: &[u8]) -> Result<TypeText, TypeFault>
    ensures { ReadsTypeAs result (type_meaning text.now) }
{
    let text = trim(text);
    if let Some(named) = named_type(text) {
        return Ok(TypeText::Fixed(named));
    }
    if is_float(text) {
        return Err(TypeFault::Float);
    }
    if text.starts_with(b"Inherit:".as_slice()) {
        return Ok(inherited(text));
    }
    match between_brackets(text) {
        Some(parts) => read_fixdt(parts),
        None => Err(TypeFault::Form),
    }
}

// A type without bits after the point.
fn integer(signed: bool, bits: u8) -> FixType
    requires { InProfile signed bits 0 }
    ensures { format_of result ≡ integer_format signed bits }
{
    FixType {
        signed,
        bits,
        frac: 0,
    }
}

// The type that a name stands for.
fn named_type(text: &[u8]) -> Option<FixType>
    ensures { option_map format_of result ≡ named_format text.now }
{
    if text == b"int8".as_slice() {
        Some(integer(true, 8))
    } else if text == b"int16".as_slice() {
        Some(integer(true, 16))
    } else if text == b"int32".as_slice() {
        Some(integer(true, 32))
    } else if text == b"uint8".as_slice() {
        Some(integer(false, 8))
    } else if text == b"uint16".as_slice() {
        Some(integer(false, 16))
    } else if text == b"uint32".as_slice() {
        Some(integer(false, 32))
    } else if text == b"boolean".as_slice() {
        Some(integer(false, 1))
    } else {
        None
    }
}

// Whether a name is that of a floating-point type.
fn is_float(text: &[u8]) -> bool
    ensures { result ≡ text_of.is_float text.now }
{
    text == b"double".as_slice() || text == b"single".as_slice() || text == b"half".as_slice()
}

// What a text that begins `Inherit:` means.
fn inherited(text: &[u8]) -> TypeText
    ensures { meaning_of result ≡ inherited_meaning text.now }
{
    if text.starts_with(b"Inherit: Logical".as_slice()) {
        TypeText::Logical
    } else if stands_in(b"back propagation".as_slice(), text) {
        TypeText::Back
    } else {
        TypeText::Inherit
    }
}

// Whether the first text, which isn't empty, is somewhere in the second.
fn stands_in(part: &[u8], text: &[u8]) -> bool
    requires { 0 < length part.now }
    ensures { result ≡ text_of.stands_in part.now text.now }
{
    let mut rest = text;
    while let [_, behind @ ..] = rest {
        if rest.starts_with(part) {
            return true;
        }
        rest = behind;
    }
    false
}

// What is between the brackets of `fixdt(s,w,f)`.
fn between_brackets(text: &[u8]) -> Option<&[u8]>
    ensures { MatchOption result (is_fixdt text.now ≡ false)
        (λ parts. (is_fixdt text.now ≡ true)
        × (parts.now ≡ drop 6 (take (length text.now - 1) text.now))) }
{
    if !text.starts_with(b"fixdt(".as_slice()) {
        return None;
    }
    match text {
        [_, _, _, _, _, _, parts @ .., b')'] => Some(parts),
        _ => None,
    }
}

// A type by what is between the brackets.
fn read_fixdt(parts: &[u8]) -> Result<TypeText, TypeFault>
    ensures { ReadsTypeAs result (fixdt_meaning parts.now) }
{
    let (sign, rest) = split_at_comma(parts);
    let (width, frac) = split_at_comma(rest);
    read_format(trim(sign), trim(width), trim(frac))
}

// Where the first comma is, or the length.
fn comma_place(text: &[u8]) -> usize
    ensures { result ≡ position_or_len is_comma text.now }
{
    text.iter().take_while(|c| **c != b',').count()
}

// What is before the first comma and after it, or the text and nothing.
fn split_at_comma(text: &[u8]) -> (&[u8], &[u8])
    ensures before { result.0.now ≡ before_first is_comma text.now }
    ensures behind { result.1.now ≡ after_first is_comma text.now }
{
    let at = comma_place(text);
    if at < text.len() {
        (&text[..at], &text[at + 1..])
    } else {
        (text, &[])
    }
}

// A type by the texts of its parts.
fn read_format(sign: &[u8], width: &[u8], frac: &[u8]) -> Result<TypeText, TypeFault>
    ensures { ReadsTypeAs result (format_meaning (sign_of sign.now) width.now frac.now) }
{
    let Some(signed) = read_sign(sign) else {
        return Err(TypeFault::Form);
    };
    if !is_numeral(width) || !is_numeral(frac) {
        return Err(TypeFault::Form);
    }
    let bits = capped_number(width, 99) as u8;
    let frac = capped_number(frac, 99) as u8;
    match FixType::new(signed, bits, frac) {
        Some(t) => Ok(TypeText::Fixed(t)),
        None => Err(TypeFault::Range),
    }
}

// The sign that the first part writes.
fn read_sign(text: &[u8]) -> Option<bool>
    ensures { result ≡ sign_of text.now }
{
    if text == b"0".as_slice() || text == b"false".as_slice() {
        Some(false)
    } else if text == b"1".as_slice() || text == b"true".as_slice() {
        Some(true)
    } else {
        None
    }
}

// The fields of a line, and the numbers that they write.
ghost use Rattle.std.specs.Prelude.{◌≡◌, [], ◌∷◌, ◌<◌, ◌≤◌, length, not, MatchOption, IfSome};
ghost use Rattle.std.specs.List.{prefix_len};
ghost use Rattle.base_core.specs.Bytes.{is_blank};
ghost use Rattle.tool_traces.specs.Fields as field;
ghost use Rattle.tool_traces.specs.Fields.{fields};

use base_core::{is_blank, trim_start};
use base_numerals::{capped_number, is_numeral};

// How many digits a field has at most.
const MOST_DIGITS: usize = 18;

// More than any number of so many digits.
const NUMBER_BOUND: u64 = 1_000_000_000_000_000_000;

/// The first field of a line's bytes, and the bytes after it. None where there is no field.
///
/// Spaces and tabs part the fields, and may be at both ends. A field has at least one byte.
#[tactic(auto, using(crate::proofs::FieldLaws::no_fields, crate::proofs::FieldLaws::first_field, crate::proofs::FieldLaws::shorter_behind))]
pub fn next_field(text: &[u8]) -> Option<(&[u8], &[u8])>
    ensures parts { MatchOption result (fields text.now ≡ [])
        (λ parts. fields text.now ≡ parts.0.now ∷ fields parts.1.now) }
    ensures shorter { IfSome result (λ parts. length parts.1.now < length text.now) }
{
    let text = trim_start(text);
    if text.is_empty() {
        return None;
    }
    Some(text.split_at(plain_len(text)))
}

// How many bytes come before the first blank.
fn plain_len(text: &[u8]) -> usize
    ensures len { result ≡ prefix_len (λ c. not (is_blank c)) text.now }
    ensures within { result ≤ length text.now }
{
    text.iter().take_while(|c| !is_blank(**c)).count()
}

// How many fields the text has.
pub(crate) fn field_count(text: &[u8]) -> u32
    requires { length text.now ≤ 4096 }
    ensures { result ≡ length (fields text.now) }
{
    let mut count = 0;
    let mut rest = text;
    while let Some((_, behind)) = next_field(rest) {
        count += 1;
        rest = behind;
    }
    count
}

/// The number that a field writes: perhaps a `-`, and 1 to 18 decimal digits. None where it is of another form.
pub fn field_number(text: &[u8]) -> Option<i64>
    ensures { result ≡ field.field_number text.now }
{
    match text {
        [b'-', digits @ ..] => digits_number(true, digits),
        _ => digits_number(false, text),
    }
}

// The number of these digits, which is negative or not.
#[tactic(auto, using(crate::proofs::FieldLaws::short_number, crate::proofs::FieldLaws::numeral_digits))]
fn digits_number(negative: bool, digits: &[u8]) -> Option<i64>
    ensures { result ≡ field.digits_number negative digits.now }
{
    if !is_numeral(digits) || digits.len() > MOST_DIGITS {
        return None;
    }
    let number = capped_number(digits, NUMBER_BOUND) as i64;
    Some(if negative { -number } else { number })
}

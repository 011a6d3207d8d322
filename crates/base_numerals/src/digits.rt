// Digits of a text, and the numbers that they write.
ghost use Rattle.std.specs.Prelude.{◌≡◌, ◌++◌, ◌^◌, ◌<◌, ◌≤◌, take_while, true, min};
ghost use Rattle.std.specs.Char.{is_ascii_digit};
ghost use Rattle.std.specs.List.{prefix_len};
ghost use Rattle.std.specs.Str.Parse.{digits_value, digits_value_after};
ghost use Rattle.base_core.specs.Bytes.{drop_while};
ghost use Rattle.base_numerals.specs.Literals as literal;
ghost use Rattle.base_numerals.specs.Literals.{are_digits};

// How many digits the text begins with.
fn digit_count(text: &[u8]) -> usize
    ensures { result ≡ prefix_len is_ascii_digit text.now }
{
    text.iter().take_while(|c| c.is_ascii_digit()).count()
}

// The digits that the text begins with, and what follows them.
pub(crate) fn split_digits(text: &[u8]) -> (&[u8], &[u8])
    ensures digits { result.0.now ≡ take_while is_ascii_digit text.now }
    ensures rest { result.1.now ≡ drop_while is_ascii_digit text.now }
    ensures all { are_digits result.0.now ≡ true }
{
    let count = digit_count(text);
    text.split_at(count)
}

// Whether a text is digits and nothing else, or empty.
fn are_digits(text: &[u8]) -> bool
    ensures { result ≡ literal.are_digits text.now }
{
    text.iter().all(|c| c.is_ascii_digit())
}

/// Whether a text is one digit or more, and nothing else.
pub fn is_numeral(text: &[u8]) -> bool
    ensures { result ≡ literal.is_numeral text.now }
{
    !text.is_empty() && are_digits(text)
}

// How many digits there are from the first that isn't 0 on.
pub(crate) fn significant_len(digits: &[u8]) -> usize
    ensures { result ≡ literal.significant_len digits.now }
{
    digits.iter().skip_while(|c| **c == b'0').count()
}

pub(crate) fn significant_len_of_both(before: &[u8], behind: &[u8]) -> usize
    ensures { result ≡ literal.significant_len (before.now ++ behind.now) }
{
    match significant_len(before) {
        0 => significant_len(behind),
        len => len + behind.len(),
    }
}

// The number that the digits write together.
#[tactic(auto, using(crate::proofs::lemmas::NumberBounds::short_front, crate::proofs::lemmas::NumberBounds::short_behind))]
pub(crate) fn value_of_both(before: &[u8], behind: &[u8]) -> u64
    requires before { are_digits before.now ≡ true }
    requires behind { are_digits behind.now ≡ true }
    requires short { literal.significant_len (before.now ++ behind.now) ≤ 18 }
    ensures value { result ≡ digits_value 10 (before.now ++ behind.now) }
    ensures bound { result < 10 ^ 18 }
{
    append_digits(append_digits(0, before), behind)
}

// The number that the digits write when they follow those of `front`.
pub(crate) fn append_digits(front: u64, digits: &[u8]) -> u64
    requires digits { are_digits digits.now ≡ true }
    requires short { digits_value_after 10 front digits.now < 10 ^ 18 }
    ensures { result ≡ digits_value_after 10 front digits.now }
{
    let mut number = front;
    for digit in digits {
        number = number * 10 + u64::from(*digit - b'0');
    }
    number
}

/// The number that digits write, or `most` where it is greater.
pub fn capped_number(digits: &[u8], most: u64) -> u64
    requires { are_digits digits.now ≡ true }
    ensures { result ≡ min (digits_value 10 digits.now) most }
{
    let mut number = 0u64;
    for digit in digits {
        let next = number
            .saturating_mul(10)
            .saturating_add(u64::from(*digit - b'0'));
        number = next.min(most);
    }
    number
}

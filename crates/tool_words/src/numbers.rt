// The numbers among the words.
ghost use Rattle.std.specs.Prelude.{◌≡◌, ◌<◌, ◌≤◌, IfSome};
ghost use Rattle.tool_words.specs.Words as words;
ghost use Rattle.tool_words.specs.Words.{greatest_start, greatest_size};

use base_numerals::{capped_number, is_numeral};

const GREATEST_START: u32 = 2_147_483_646;

const GREATEST_SIZE: u32 = 2_499;

// Whether a word is digits, of which the first is no 0.
fn is_plain_number(word: &[u8]) -> bool
    ensures { result ≡ words.is_plain_number word.now }
{
    match word {
        [] => false,
        [first, ..] => is_numeral(word) && *first != b'0',
    }
}

// The number from 1 to `greatest` that a word writes in digits without a leading 0.
#[tactic(auto, using(crate::proofs::PlainNumbers::plain_digits, crate::proofs::PlainNumbers::plain_positive, crate::proofs::PlainNumbers::number_up_to_within, crate::proofs::PlainNumbers::number_up_to_beyond))]
fn number_up_to(greatest: u32, word: &str) -> Option<u32>
    ensures value { result ≡ words.number_up_to greatest word.now }
    ensures bounds { IfSome result (λ number. (0 < number) × (number ≤ greatest)) }
{
    let digits = word.as_bytes();
    if !is_plain_number(digits) {
        return None;
    }
    let number = capped_number(digits, u64::from(greatest) + 1);
    if number > u64::from(greatest) {
        return None;
    }
    Some(number as u32)
}

/// The START that a word writes, which is 1 to 2,147,483,646.
pub(crate) fn start_of(word: &str) -> Option<u32>
    ensures value { result ≡ words.number_up_to greatest_start word.now }
    ensures bounds { IfSome result (λ start. (0 < start) × (start ≤ greatest_start)) }
{
    number_up_to(GREATEST_START, word)
}

/// The SIZE that a word writes, which is 1 to 2,499.
pub(crate) fn size_of(word: &str) -> Option<u32>
    ensures value { result ≡ words.number_up_to greatest_size word.now }
    ensures bounds { IfSome result (λ size. (0 < size) × (size ≤ greatest_size)) }
{
    number_up_to(GREATEST_SIZE, word)
}

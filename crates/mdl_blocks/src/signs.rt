ghost use Rattle.std.specs.Prelude.{◌≡◌, ◌<◌, ◌≤◌, ◌^◌, ◌==◌, option_map, length, count_by, not};
ghost use Rattle.mdl_blocks.specs.Words.{number_up_to};
ghost use Rattle.mdl_blocks.specs.Signs as signs;

use crate::numbers::number_up_to;
use diagram_blocks::Logic;

/// The most inputs that a block has.
const MOST_INPUTS: u32 = 16;

/// The signs of a sum's inputs: how many there are, and a mask of those that are subtracted, whose bit i is set where input
/// i + 1 is.
#[derive(Clone, Copy, Debug, PartialEq, Eq, Drop)]
pub struct SignMask {
    /// How many inputs there are, from 1 to 16.
    pub count: u8,
    /// Those that are subtracted.
    pub minus: u32,
}

/// The signs of a sum's inputs, by their text: as many pluses as a number says, or the signs in the text.
pub(crate) fn sum_signs(text: &[u8]) -> Option<SignMask>
    ensures { result ≡ signs.sum_signs text.now }
{
    match number_up_to(MOST_INPUTS, text) {
        Some(count) => Some(pluses(count)),
        None => written_signs(text),
    }
}

/// So many pluses.
fn pluses(count: u32) -> SignMask
    requires { count ≤ 16 }
    ensures { result ≡ signs.mask_of (signs.pluses count) }
{
    SignMask {
        count: count as u8,
        minus: 0,
    }
}

/// The signs of a text that has only 1 to 16 signs, and bars.
fn written_signs(text: &[u8]) -> Option<SignMask>
    ensures { result ≡ option_map signs.mask_of (signs.written_signs text.now) }
{
    let count = sign_count(text);
    if are_signs(text) && count >= 1 && count <= MOST_INPUTS as usize {
        Some(SignMask {
            count: count as u8,
            minus: minus_mask(text),
        })
    } else {
        None
    }
}

/// Whether a text is made of signs and bars.
fn are_signs(text: &[u8]) -> bool
    ensures { result ≡ signs.are_signs text.now }
{
    text.iter().all(|byte| matches!(*byte, b'+' | b'-' | b'|'))
}

/// How many signs a text has.
fn sign_count(text: &[u8]) -> usize
    ensures { result ≡ length (signs.signs_of text.now) }
{
    unbarred_count(text)
}

/// How many bytes of a text aren't bars.
fn unbarred_count(text: &[u8]) -> usize
    ensures { result ≡ count_by (λ c. not (c == 124)) text.now }
{
    text.iter().filter(|byte| **byte != b'|').count()
}

/// The mask of the minuses among the signs of a text with at most 16.
fn minus_mask(text: &[u8]) -> u32
    requires { length (signs.signs_of text.now) ≤ 16 }
    ensures { result ≡ signs.minus_mask (signs.signs_of text.now) }
{
    let mut at = text.len();
    let mut mask = 0;
    while at > 0 {
        at -= 1;
        mask = with_sign(text[at], mask);
    }
    mask
}

/// The mask of some signs, with one more in front where the byte is no bar.
fn with_sign(byte: u8, mask: u32) -> u32
    requires { mask < 2 ^ 20 }
    ensures { result ≡ signs.mask_with byte mask }
{
    if byte == b'|' {
        mask
    } else if byte == b'-' {
        2 * mask + 1
    } else {
        2 * mask
    }
}

/// How many inputs the text of a product gives: a number, or as many as there are stars.
pub(crate) fn product_count(text: &[u8]) -> Option<u8>
    ensures { result ≡ signs.product_count text.now }
{
    match number_up_to(MOST_INPUTS, text) {
        Some(count) => Some(count as u8),
        None => star_count(text),
    }
}

/// How many stars a text has that is made of 1 to 16 stars.
fn star_count(text: &[u8]) -> Option<u8>
    ensures { result ≡ signs.star_count text.now }
{
    if text.len() >= 1 && text.len() <= MOST_INPUTS as usize && are_stars(text) {
        Some(text.len() as u8)
    } else {
        None
    }
}

/// Whether a text is made of stars.
fn are_stars(text: &[u8]) -> bool
    ensures { result ≡ signs.are_stars text.now }
{
    text.iter().all(|byte| *byte == b'*')
}

/// How many inputs a logical operator has: one for the negation, whatever is written.
pub(crate) fn logic_count(op: Logic, text: &[u8]) -> Option<u8>
    ensures { result ≡ signs.logic_count op text.now }
{
    match op {
        Logic::Not => Some(1),
        Logic::And | Logic::Or | Logic::Nand | Logic::Nor | Logic::Xor | Logic::Nxor => {
            input_count(text)
        }
    }
}

/// How many inputs a number gives.
fn input_count(text: &[u8]) -> Option<u8>
    ensures { result ≡ number_up_to 16 text.now }
{
    let count = number_up_to(MOST_INPUTS, text)?;
    Some(count as u8)
}

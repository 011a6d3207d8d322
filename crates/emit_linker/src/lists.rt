// Numbers in lists, and numbers that fit.
ghost use Rattle.std.specs.Prelude.{◌≡◌, ◌+◌, IfOk, bytes_eq, slice_index};

use base_core::{Memory, Text};

/// The number at a place, 0 where there is none.
pub(crate) fn number_at(numbers: &[u32], place: u32) -> u32
    ensures { result ≡ slice_index numbers.now place }
{
    match numbers.get(place as usize) {
        Some(number) => *number,
        None => 0,
    }
}

/// A number as a position, where it fits.
pub(crate) fn small(number: usize) -> Result<u32, Memory>
    ensures { IfOk result (λ n. n ≡ number) }
{
    if number <= u32::MAX as usize {
        Ok(number as u32)
    } else {
        Err(Memory)
    }
}

/// The sum of two positions, where it fits.
pub(crate) fn sum(one: u32, other: u32) -> Result<u32, Memory>
    ensures { IfOk result (λ n. n ≡ one + other) }
{
    match one.checked_add(other) {
        Some(number) => Ok(number),
        None => Err(Memory),
    }
}

/// Whether a text is a name.
pub(crate) fn is_named(text: &Text, name: &[u8]) -> bool
    ensures { result ≡ bytes_eq text.now name.now }
{
    text.bytes() == name
}

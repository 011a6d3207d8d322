ghost use Rattle.std.specs.Prelude.{◌≡◌, ◌+◌, ℕ, IfOk, if◌then◌else◌};
ghost use Rattle.emit_pruned.specs.Marks.{flag_at, place_in};
ghost use Rattle.emit_pruned.specs.Pruned.{kept_before};

use crate::places::Places;
use base_core::Memory;
use std::alloc::Global;

/// The places of the functions that are needed. Fails when memory runs out, or if a position would pass 32 bits.
pub(crate) fn places_of(alloc: Global, needed: &[bool]) -> Result<Places, Memory>
    ensures { IfOk result
        (λ places. (k : ℕ) → place_in places k ≡ kept_before (flag_at needed.now) k) }
{
    let mut before = Vec::new(alloc);
    let mut kept = 0u32;
    for is_needed in needed {
        before.push(kept)?;
        kept = counted(kept, *is_needed)?;
    }
    Ok(Places { before, kept })
}

/// One more, if it is counted.
fn counted(kept: u32, is_needed: bool) -> Result<u32, Memory>
    ensures { IfOk result (λ n. n ≡ kept + (if is_needed then 1 else 0)) }
{
    if !is_needed {
        return Ok(kept);
    }
    match kept.checked_add(1) {
        Some(more) => Ok(more),
        None => Err(Memory),
    }
}

/// The new position of a function.
pub(crate) fn place_of(places: &Places, function: u32) -> u32
    ensures { result ≡ place_in places.now function }
{
    match places.before.get(function as usize) {
        Some(place) => *place,
        None => places.kept,
    }
}

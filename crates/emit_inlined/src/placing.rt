ghost use Rattle.std.specs.Prelude.{◌≡◌, ◌+◌, ℕ, IfOk, if◌then◌else◌};
ghost use Rattle.emit_inlined.specs.Steps.{is_kept, place_in};
ghost use Rattle.emit_inlined.specs.Inlined.{kept_before};

use crate::places::Places;
use base_core::Memory;
use std::alloc::Global;

/// The places of procedures, by which of them don't stay. Fails where memory runs out, or a position would pass 32 bits.
pub(crate) fn places_of(alloc: Global, inlined: &[bool]) -> Result<Places, Memory>
    ensures { IfOk result
        (λ places. (k : ℕ) → place_in places k ≡ kept_before (is_kept inlined.now) k) }
{
    let mut before = Vec::new(alloc);
    let mut kept = 0u32;
    let mut dropped = 0u32;
    for is_inlined in inlined {
        before.push(kept)?;
        kept = counted(kept, !*is_inlined)?;
        dropped = counted(dropped, *is_inlined)?;
    }
    Ok(Places { before, dropped })
}

/// One more, if it is counted.
fn counted(count: u32, is_counted: bool) -> Result<u32, Memory>
    ensures { IfOk result (λ n. n ≡ count + (if is_counted then 1 else 0)) }
{
    if !is_counted {
        return Ok(count);
    }
    match count.checked_add(1) {
        Some(more) => Ok(more),
        None => Err(Memory),
    }
}

/// The new position of a procedure; past the end all stay.
pub(crate) fn place_of(places: &Places, procedure: u32) -> u32
    ensures { result ≡ place_in places.now procedure }
{
    match places.before.get(procedure as usize) {
        Some(place) => *place,
        None => procedure.saturating_sub(places.dropped),
    }
}

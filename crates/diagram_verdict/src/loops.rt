ghost use Rattle.std.specs.Prelude.{◌≡◌, ◌<◌, length, EachIndex, IfOk, slice_index};
ghost use Rattle.diagram_meaning.specs.ResolvedTree.{diagram_of};
ghost use Rattle.diagram_verdict.specs.Faults.{TellsLoopOf};
ghost use Rattle.diagram_verdict.specs.Verdict.{places_of as places_of_rows};

use base_core::{Memory, Place};
use base_refusals::Refusal;
use diagram_meaning::{Resolved, Row};
use diagram_needs::find_loop;
use std::alloc::Global;

/// The places of the rows with these numbers.
fn places_of(alloc: Global, rows: &[Row], numbers: &[u32]) -> Result<Vec<Place>, Memory>
    requires { EachIndex numbers.now (λ k. slice_index numbers.now k < length rows.now) }
    ensures { IfOk result (λ v. v.items ≡ places_of_rows rows.now numbers.now) }
{
    let mut places = Vec::new(alloc);
    for number in numbers {
        places.push(rows[*number as usize].place)?;
    }
    Ok(places)
}

/// The refusal of a diagram with rows that need each other at one tick.
pub(crate) fn refusal_of_loop(alloc: Global, r: &Resolved) -> Result<Option<Refusal>, Memory>
    ensures { IfOk result (TellsLoopOf (diagram_of r.now)) }
{
    let Some(told) = find_loop(alloc, r)? else {
        return Ok(None);
    };
    let rows = places_of(alloc, r.tree.table().rows.as_slice(), &told)?;
    Ok(Some(Refusal::Loop { rows }))
}

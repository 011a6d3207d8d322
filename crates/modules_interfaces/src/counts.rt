ghost use Rattle.std.specs.Prelude.{◌≡◌, ◌+◌, ◌<◌, ◌≤◌, All, IfOk, ℕ, length, slice_index_or};
ghost use Rattle.diagram_blocks.specs.Kinds.{is_inport as is_inport_kind, is_outport as is_outport_kind};
ghost use Rattle.modules_interfaces.specs.PortCounts.{AreCounts, place_of as place_of_system};

use base_core::Memory;
use diagram_meaning::Row;
use std::alloc::Global;

/// The place of a system among all: the root is first, and then there is one for each row.
fn place_of(system: Option<u32>) -> usize
    ensures { result ≡ place_of_system system }
{
    match system {
        None => 0,
        Some(e) => e as usize + 1,
    }
}

/// The number at the place of a system.
pub(crate) fn count_at(counts: &[u32], system: Option<u32>) -> u32
    ensures { result ≡ slice_index_or counts.now (place_of_system system) 0 }
{
    counts.get(place_of(system)).copied().unwrap_or(0)
}

// Adds one to the number at a place.
fn add_one(counts: &mut Vec<u32>, place: usize)
    requires inside { place < length counts.old.items }
    requires small { slice_index_or counts.old.items place 0 ≤ 20_000 }
    ensures length { length counts.new.items ≡ length counts.old.items }
    ensures more { slice_index_or counts.new.items place 0 ≡ slice_index_or counts.old.items place 0
        + 1 }
    ensures others { (k : ℕ) → (k ≡ place → ⊥) →
        slice_index_or counts.new.items k 0 ≡ slice_index_or counts.old.items k 0 }
{
    counts[place] += 1;
}

/// How many Inports each system has, by place.
///
/// Fails only when memory runs out.
pub(crate) fn inport_counts(alloc: Global, rows: &[Row]) -> Result<Vec<u32>, Memory>
    requires few { length rows.now ≤ 20_000 }
    requires owners { All (λ row. place_of_system row.owner ≤ length rows.now) rows.now }
    ensures { IfOk result (λ counts. AreCounts is_inport_kind rows.now counts.items) }
{
    let mut counts = vec![in alloc; 0; rows.len() + 1]?;
    for row in rows {
        if row.kind.is_inport() {
            add_one(&mut counts, place_of(row.owner));
        }
    }
    Ok(counts)
}

/// How many Outports each system has, by place.
///
/// Fails only when memory runs out.
pub(crate) fn outport_counts(alloc: Global, rows: &[Row]) -> Result<Vec<u32>, Memory>
    requires few { length rows.now ≤ 20_000 }
    requires owners { All (λ row. place_of_system row.owner ≤ length rows.now) rows.now }
    ensures { IfOk result (λ counts. AreCounts is_outport_kind rows.now counts.items) }
{
    let mut counts = vec![in alloc; 0; rows.len() + 1]?;
    for row in rows {
        if row.kind.is_outport() {
            add_one(&mut counts, place_of(row.owner));
        }
    }
    Ok(counts)
}

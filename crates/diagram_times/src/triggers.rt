ghost use Rattle.std.specs.Prelude.{◌≡◌, ◌<◌, IfOk, Some, if◌then◌else◌, length};
ghost use Rattle.diagram_meaning.specs.Rows.{by_row, control_at, is_triggered, row_at, trigger_among};
ghost use Rattle.diagram_blocks.specs.Kinds.{control_of};
ghost use Rattle.diagram_meaning.specs.Rows as table;
ghost use Rattle.diagram_meaning.specs.SampleTimes as search;

use base_core::{Control, Memory};
use diagram_blocks::Kind;
use diagram_meaning::Row;
use std::alloc::Global;

/// For each row the outermost subsystem with a trigger around it, if there is one.
///
/// In time linear in rows: subsystems are at most 32 deep.
pub(crate) fn outer_triggers(alloc: Global, rows: &[Row]) -> Result<Vec<Option<u32>>, Memory>
    ensures { IfOk result (λ v. v.items ≡ by_row rows.now (search.outermost_trigger rows.now)) }
{
    let mut triggers = Vec::new(alloc);
    for b in 0..rows.len() {
        triggers.push(outermost_trigger(rows, b))?;
    }
    Ok(triggers)
}

/// The outermost subsystem with a trigger around a row, if there is one.
fn outermost_trigger(rows: &[Row], b: usize) -> Option<u32>
    ensures { result ≡ search.outermost_trigger rows.now b }
{
    let mut found = None;
    let mut outer = owner_at(rows, b);
    let mut left = rows.len();
    'outward: while left > 0 {
        let Some(e) = outer else {
            return found;
        };
        found = last_trigger(rows, found, e);
        outer = owner_at(rows, e as usize);
        left -= 1;
    }
    found
}

/// Of what was found and a subsystem row, that row where it has a trigger.
fn last_trigger(rows: &[Row], found: Option<u32>, e: u32) -> Option<u32>
    ensures { result ≡ (if is_triggered (control_at rows.now e) then Some e else found) }
{
    if has_trigger(rows, e as usize) {
        Some(e)
    } else {
        found
    }
}

/// The subsystem in which a row is, none for a row of the root and past the end.
fn owner_at(rows: &[Row], b: usize) -> Option<u32>
    ensures { result ≡ (row_at rows.now b).owner }
{
    match rows.get(b) {
        Some(row) => row.owner,
        None => None,
    }
}

/// Whether a row is a subsystem with a trigger.
fn has_trigger(rows: &[Row], e: usize) -> bool
    ensures { result ≡ is_triggered (control_at rows.now e) }
{
    match rows.get(e) {
        Some(row) => is_triggered(&row.kind),
        None => false,
    }
}

/// Whether a row of this kind is a subsystem with a trigger.
fn is_triggered(kind: &Kind) -> bool
    ensures { result ≡ is_triggered (control_of kind.now) }
{
    match kind {
        Kind::SubSystem(control) => match control {
            Control::Plain | Control::Enabled { .. } => false,
            Control::Triggered(_) | Control::Both { .. } => true,
        },
        _ => false,
    }
}

/// The outermost subsystem with a trigger around a row of the table, as it was found.
pub(crate) fn trigger_at(rows: &[Row], triggers: &[Option<u32>], b: usize) -> Option<u32>
    requires triggers { triggers.now ≡ by_row rows.now (search.outermost_trigger rows.now) }
    requires row { b < length rows.now }
    ensures { result ≡ search.outermost_trigger rows.now b }
{
    triggers.get(b).copied().unwrap_or(None)
}

/// The row that triggers a subsystem row, if it has a trigger.
pub(crate) fn trigger_wire(rows: &[Row], e: usize) -> Option<u32>
    ensures { result ≡ table.trigger_wire rows.now e }
{
    match rows.get(e) {
        Some(row) => kind_trigger(&row.kind, row.inputs.wires()),
        None => None,
    }
}

/// The trigger among the control wires of a row, if it is a subsystem with one.
fn kind_trigger(kind: &Kind, wires: &[u32]) -> Option<u32>
    ensures { result ≡ trigger_among (control_of kind.now) wires.now }
{
    match kind {
        Kind::SubSystem(control) => match control {
            Control::Plain | Control::Enabled { .. } => None,
            Control::Triggered(_) => wires.first().copied(),
            Control::Both { .. } => wires.get(1).copied(),
        },
        _ => None,
    }
}

ghost use Rattle.std.specs.Prelude.{◌≡◌, ◌<◌, ◌++◌, ◌^◌, All, IfOk, OnOk, filter, flat_map, length, map};
ghost use Rattle.std.specs.List.{range_with_len};
ghost use Rattle.diagram_blocks.specs.Meaning.{has_value as has_value_of_kind};
ghost use Rattle.c_syntax.specs.Plain.{stmt_tree};
ghost use Rattle.emit_shape.specs.Delays.{is_line as is_line_op, is_single as is_single_op};
ghost use Rattle.emit_system_spec.specs.Emittable.{IsEmittable, IsWritableRow};
ghost use Rattle.emit_system_spec.specs.Fields.{memory_field, value_field};
ghost use Rattle.emit_system_spec.specs.Renewing as renewing;

use base_core::Memory;
use c_syntax::{Expr, Stmt};
use emit_layout::Layout;
use emit_row_code::written;
use emit_row_facts::{is_line, is_single, is_triggered, row_start};
use modules_profile::LocalRow;
use std::alloc::Global;

/// 0 is stored in an own field.
fn zero_store(field: u32) -> Stmt
    ensures { stmt_tree result ≡ renewing.zero_store field }
{
    Stmt::Set {
        line: 0,
        field,
        value: Expr::Literal(0),
    }
}

/// The start of a row is stored in an own field.
fn start_store(
    alloc: Global,
    layout: &Layout<'_>,
    field: u32,
    row: &LocalRow,
) -> Result<Stmt, Memory>
    requires { IsWritableRow layout.now.local row.now }
    ensures { IfOk result (λ s. stmt_tree s ≡ renewing.start_store layout.now.local field row.now) }
{
    let value = written(alloc, row_start(layout.local(), row))?;
    Ok(Stmt::Set {
        line: 0,
        field,
        value,
    })
}

/// Adds what gives the values of rows their starts.
fn push_values(
    alloc: Global,
    layout: &Layout<'_>,
    rows: &[LocalRow],
    body: &mut Vec<Stmt>,
) -> Result<(), Memory>
    requires { All (IsWritableRow layout.now.local) rows.now }
    ensures { OnOk result (map stmt_tree body.new.items ≡ map stmt_tree body.old.items
        ++ map (λ r. renewing.start_store layout.now.local (value_field layout.now.local r.row) r)
        (filter (λ r. has_value_of_kind r.kind) rows.now)) }
{
    for row in rows {
        if row.kind.has_value() {
            body.push(start_store(alloc, layout, layout.value_field(row.row), row)?)?;
        }
    }
    Ok(())
}

/// Adds what gives memories of one sample their starts.
fn push_singles(
    alloc: Global,
    layout: &Layout<'_>,
    rows: &[LocalRow],
    body: &mut Vec<Stmt>,
) -> Result<(), Memory>
    requires { All (IsWritableRow layout.now.local) rows.now }
    ensures { OnOk result (map stmt_tree body.new.items ≡ map stmt_tree body.old.items
        ++ map (λ r. renewing.start_store layout.now.local (memory_field layout.now.local r.row) r)
        (filter (λ r. is_single_op r.op) rows.now)) }
{
    for row in rows {
        if is_single(&row.op) {
            body.push(start_store(alloc, layout, layout.memory_field(row.row), row)?)?;
        }
    }
    Ok(())
}

/// Adds what empties rings.
fn push_rings(layout: &Layout<'_>, rows: &[LocalRow], body: &mut Vec<Stmt>) -> Result<(), Memory>
    ensures { OnOk result (map stmt_tree body.new.items ≡ map stmt_tree body.old.items
        ++ flat_map (renewing.ring_stores layout.now.local)
        (filter (λ r. is_line_op r.op) rows.now)) }
{
    for row in rows {
        if is_line(&row.op) {
            push_ring(layout, row, body)?;
        }
    }
    Ok(())
}

/// Adds what empties the ring of a row.
fn push_ring(layout: &Layout<'_>, row: &LocalRow, body: &mut Vec<Stmt>) -> Result<(), Memory>
    ensures { OnOk result (map stmt_tree body.new.items ≡ map stmt_tree body.old.items
        ++ renewing.ring_stores layout.now.local row.now) }
{
    let ring = layout.ring_fields(row.row);
    body.push(zero_store(ring.place))?;
    body.push(zero_store(ring.taken))?;
    Ok(())
}

/// Adds what makes the trigger remember nothing yet.
fn push_trigger(layout: &Layout<'_>, body: &mut Vec<Stmt>) -> Result<(), Memory>
    ensures { OnOk result (map stmt_tree body.new.items ≡ map stmt_tree body.old.items
        ++ renewing.trigger_starts layout.now.local) }
{
    if is_triggered(layout.local().control) {
        body.push(zero_store(layout.trigger_field()))?;
    }
    Ok(())
}

/// Adds what gives the values of a system's rows their starts.
///
/// Fails only when memory runs out.
pub(crate) fn push_value_starts(
    alloc: Global,
    layout: &Layout<'_>,
    body: &mut Vec<Stmt>,
) -> Result<(), Memory>
    requires { All (IsWritableRow layout.now.local) layout.now.local.rows }
    ensures { OnOk result (map stmt_tree body.new.items ≡ map stmt_tree body.old.items
        ++ renewing.value_starts layout.now.local) }
{
    push_values(alloc, layout, layout.local().rows.as_slice(), body)
}

/// Adds what makes a system's memories those before the first tick.
///
/// Fails only when memory runs out.
pub(crate) fn push_memory_starts(
    alloc: Global,
    layout: &Layout<'_>,
    body: &mut Vec<Stmt>,
) -> Result<(), Memory>
    requires { All (IsWritableRow layout.now.local) layout.now.local.rows }
    ensures { OnOk result (map stmt_tree body.new.items ≡ map stmt_tree body.old.items
        ++ renewing.memory_starts layout.now.local) }
{
    let rows = layout.local().rows.as_slice();
    push_singles(alloc, layout, rows, body)?;
    push_rings(layout, rows, body)?;
    push_trigger(layout, body)?;
    Ok(())
}

/// What brings the counters of a system back.
///
/// Fails only when memory runs out.
pub fn counter_stores(alloc: Global, layout: &Layout<'_>) -> Result<Vec<Stmt>, Memory>
    requires { IsEmittable layout.now.local layout.now.schedule }
    ensures { IfOk result (λ v. map stmt_tree v.items
        ≡ renewing.counter_stores layout.now.local layout.now.schedule) }
{
    let first = layout.child_field(layout.local().children.len());
    let count = layout.shared_groups().len();
    let mut stores = Vec::new(alloc);
    for k in 0..count {
        stores.push(zero_store(first + k as u32))?;
    }
    Ok(stores)
}

ghost use Rattle.std.specs.Prelude.{◌≡◌, ◌<◌, ◌^◌, IfOk, length, filter};
ghost use Rattle.diagram_blocks.specs.Meaning.{has_value as has_value_of_kind};
ghost use Rattle.emit_shape.specs.Delays.{is_single as is_single_op, is_line as is_line_op};
ghost use Rattle.emit_system_spec.specs.Emittable.{IsEmittable};
ghost use Rattle.emit_system_spec.specs.Fields as fields;
ghost use Rattle.emit_layout.specs.Laid.{Scheduled};
ghost use Rattle.emit_layout.specs.Tables.{HasFields};

use crate::groups::shared_groups;
use base_core::Memory;
use emit_layout::{Fields, Numbers, Positions};
use emit_row_facts::{is_line, is_single};
use modules_profile::{Local, LocalRow};
use modules_schedule::Schedule;
use std::alloc::Global;

/// The fields of a system with this schedule, found in time linear in its rows and in its functions' calls of groups.
pub(crate) fn fields_of<'a>(
    alloc: Global,
    local: &'a Local,
    schedule: &'a Schedule,
) -> Result<Fields<'a>, Memory>
    requires { IsEmittable local.now schedule.now }
    ensures { IfOk result (λ f. f ≡ record { local = local.now; schedule = schedule.now }) }
{
    let numbers = numbers_of(alloc, local, schedule)?;
    Ok(Fields::new(local, schedule, numbers))
}

// The numbers of the rows and groups that have fields.
fn numbers_of(alloc: Global, local: &Local, schedule: &Schedule) -> Result<Numbers, Memory>
    requires { IsEmittable local.now schedule.now }
    ensures { let of : Scheduled = record { local = local.now; schedule = schedule.now } in
        IfOk result (λ n. HasFields of n.values n.singles n.lines n.counters) }
{
    let rows = rows_of(local);
    Ok(Numbers {
        values: value_rows(alloc, rows)?,
        singles: single_rows(alloc, rows)?,
        lines: line_rows(alloc, rows)?,
        counters: counted_groups(alloc, schedule)?,
    })
}

// The own rows of a system.
fn rows_of(local: &Local) -> &[LocalRow]
    ensures { result.now ≡ local.now.rows }
{
    local.rows.as_slice()
}

// The numbers of the rows with a value.
fn value_rows(alloc: Global, rows: &[LocalRow]) -> Result<Positions, Memory>
    ensures { IfOk result (λ p. p
        ≡ fields.numbers (filter (λ r. has_value_of_kind r.kind) rows.now)) }
{
    let mut numbers = Vec::new(alloc);
    for row in rows {
        if row.kind.has_value() {
            numbers.push(row.row)?;
        }
    }
    Positions::new(alloc, numbers)
}

// The numbers of the rows that remember one sample.
fn single_rows(alloc: Global, rows: &[LocalRow]) -> Result<Positions, Memory>
    ensures { IfOk result (λ p. p ≡ fields.numbers (filter (λ r. is_single_op r.op) rows.now)) }
{
    let mut numbers = Vec::new(alloc);
    for row in rows {
        if is_single(&row.op) {
            numbers.push(row.row)?;
        }
    }
    Positions::new(alloc, numbers)
}

// The numbers of the rows that remember several samples.
fn line_rows(alloc: Global, rows: &[LocalRow]) -> Result<Positions, Memory>
    ensures { IfOk result (λ p. p ≡ fields.numbers (filter (λ r. is_line_op r.op) rows.now)) }
{
    let mut numbers = Vec::new(alloc);
    for row in rows {
        if is_line(&row.op) {
            numbers.push(row.row)?;
        }
    }
    Positions::new(alloc, numbers)
}

// The groups that have a counter.
fn counted_groups(alloc: Global, schedule: &Schedule) -> Result<Positions, Memory>
    requires { length schedule.now.groups < 2 ^ 32 }
    ensures { IfOk result (λ p. p ≡ fields.shared_groups schedule.now) }
{
    Positions::new(alloc, shared_groups(alloc, schedule)?)
}

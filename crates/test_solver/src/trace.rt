ghost use Rattle.std.specs.Prelude.{◌≡◌, ◌<◌, ◌↔◌, ◌-◌, ◌&&◌, None, ℕ, count_by, length, map, true};
ghost use Rattle.base_fixed_point.specs.Conversion.{InType};
ghost use Rattle.diagram_meaning.specs.declared.table.Row.{Row as PlainRow};
ghost use Rattle.diagram_meaning.specs.ResolvedTree.{IsResolvedTree, diagram_of};
ghost use Rattle.diagram_meaning.specs.Rows.{inports_of, same_system};
ghost use Rattle.diagram_blocks.specs.Kinds.{is_inport};
ghost use Rattle.diagram_meaning.specs.Diagram.{type_at};
ghost use Rattle.diagram_meaning.specs.Needs.{IsInputRow};
ghost use Rattle.diagram_meaning.specs.Run.{value_at};
ghost use Rattle.diagram_meaning.specs.Traces.{IsTrace, IsTraceRow};
ghost use Rattle.diagram_typed_runs.specs.Traces.{HasInputs};

use crate::reading::{row, row_count, type_of};
use base_fixed_point::{FixType, greatest, least};
use diagram_blocks::Kind;
use diagram_meaning::{Resolved, Row};

/// Whether these are a trace of the root: each row has just one number for each of its Inports, by its port and in its type.
pub fn is_trace_for(r: &Resolved, inputs: &[Vec<i64>]) -> bool
    ensures { (result ≡ true) ↔ IsTrace (diagram_of r.now) None (map (λ x. x.items) inputs.now) }
{
    for row in inputs {
        if !is_trace_row(r, row.as_slice()) {
            return false;
        }
    }
    true
}

// Whether this is a row of a trace of the root.
fn is_trace_row(r: &Resolved, inputs: &[i64]) -> bool
    ensures { (result ≡ true) ↔ IsTraceRow (diagram_of r.now) None inputs.now }
{
    if inputs.len() != input_count(r) {
        return false;
    }
    has_inputs(r, inputs)
}

// How many Inports the root has.
fn input_count(r: &Resolved) -> usize
    ensures count { result ≡ length (inports_of r.now.tree.table.rows None) }
    ensures resolved { IsResolvedTree r.now }
{
    root_inports(r.tree.table().rows.as_slice())
}

// How many of the rows are Inports of the root.
fn root_inports(rows: &[Row]) -> usize
    ensures { result
        ≡ count_by (λ (row : PlainRow). same_system row.owner None && is_inport row.kind) rows.now }
{
    let mut count = 0;
    for row in rows {
        if is_root_inport(row) {
            count += 1;
        }
    }
    count
}

// Whether a row is an Inport of the root.
fn is_root_inport(row: &Row) -> bool
    ensures { result ≡ (same_system row.now.owner None && is_inport row.now.kind) }
{
    match (row.owner, row.kind) {
        (None, Kind::Inport { .. }) => true,
        _ => false,
    }
}

// Whether a row of a trace has the inputs of the diagram.
fn has_inputs(r: &Resolved, inputs: &[i64]) -> bool
    ensures { (result ≡ true) ↔ HasInputs (diagram_of r.now) None inputs.now }
{
    for b in 0..row_count(r) {
        if !has_input_of(r, inputs, b) {
            return false;
        }
    }
    true
}

// Whether a row of a trace has the input that row `b` reads of it, where that is an Inport of the root.
fn has_input_of(r: &Resolved, inputs: &[i64], b: usize) -> bool
    requires { b < length r.now.tree.table.rows }
    ensures { (result ≡ true) ↔ ((port : ℕ) → IsInputRow r.now.tree.table.rows None port b →
        (port - 1 < length inputs.now)
        × InType (type_at r.now.types b) (value_at inputs.now (port - 1))) }
{
    let row = row(r, b);
    match (row.kind, row.owner) {
        (Kind::Inport { port }, None) => {
            has_number(inputs, port.saturating_sub(1) as usize, type_of(r, b))
        }
        _ => true,
    }
}

// Whether a row of a trace has a number in this column, and it lies in the type.
fn has_number(inputs: &[i64], column: usize, t: FixType) -> bool
    ensures { (result ≡ true)
        ↔ ((column < length inputs.now) × InType t (value_at inputs.now column)) }
{
    match inputs.get(column) {
        Some(number) => least(t) <= *number && *number <= greatest(t),
        None => false,
    }
}

ghost use Rattle.std.specs.Prelude.{◌≡◌, ℕ, ◌<◌, EachIndex, IfOk, None, length, map, slice_index};
ghost use Rattle.diagram_blocks.specs.Limits.{HasInputTypes, IsWithinLimits};
ghost use Rattle.diagram_blocks.specs.Meaning.{op_of};
ghost use Rattle.diagram_meaning.specs.Diagram.{op_in};
ghost use Rattle.diagram_meaning.specs.Rows.{by_row};
ghost use Rattle.diagram_meaning.specs.SampleTimes.{AreTimes};
ghost use Rattle.diagram_meaning.specs.TimeRefusals.{HasTimeRefusal};
ghost use Rattle.diagram_meaning.specs.TypeRefusals.{type_refusal};
ghost use Rattle.diagram_meaning.specs.Types.{HasType, type_at};
ghost use Rattle.diagram_meaning.specs.WellFormed.{IsWellFormed};

use crate::resolved::Resolved;
use crate::subsystem::Tree;
use crate::table::{Row, Table};
use crate::times::Times;
use base_core::Memory;
use base_fixed_point::FixType;
use diagram_blocks::{Op, resolve};
use std::alloc::Global;

/// The types of the rows that a row's inputs read.
fn input_types(alloc: Global, row: &Row, types: &[FixType]) -> Result<Vec<FixType>, Memory>
    requires { EachIndex row.now.inputs (λ k. slice_index row.now.inputs k < length types.now) }
    ensures { IfOk result (λ v. v.items ≡ map (type_at types.now) row.now.inputs) }
{
    let mut inputs = Vec::new(alloc);
    for wire in row.inputs.wires() {
        inputs.push(types[*wire as usize])?;
    }
    Ok(inputs)
}

/// What a row computes, given the types of all rows, its own, and whether it is a delay between rates.
fn operation(
    alloc: Global,
    row: &Row,
    types: &[FixType],
    out: FixType,
    delays: bool,
) -> Result<Op, Memory>
    requires wires { EachIndex row.now.inputs (λ k. slice_index row.now.inputs k < length types.now) }
    requires has_types { HasInputTypes row.now.kind (map (type_at types.now) row.now.inputs) }
    requires within_limits { IsWithinLimits row.now.kind }
    ensures { IfOk result (λ op. op
        ≡ op_of row.now.kind (map (type_at types.now) row.now.inputs) out delays) }
{
    let inputs = input_types(alloc, row, types)?;
    Ok(resolve(&row.kind, inputs.as_slice(), out, delays))
}

/// What each row of a table computes.
fn operations(
    alloc: Global,
    table: &Table,
    types: &[FixType],
    delays: &[bool],
) -> Result<Vec<Op>, Memory>
    requires well_formed { IsWellFormed table.now }
    requires types { length types.now ≡ length table.now.rows }
    requires delays { length delays.now ≡ length table.now.rows }
    ensures { IfOk result (λ ops. ops.items
        ≡ by_row table.now.rows (op_in table.now.rows types.now delays.now)) }
{
    let mut ops = Vec::new(alloc);
    for (b, row) in table.rows.as_slice().iter().enumerate() {
        ops.push(operation(alloc, row, types, types[b], delays[b])?)?;
    }
    Ok(ops)
}

/// A tree with its types and sample times, and the operation of each row. The types are those of the rows of its table, and
/// the sample times those of the table, in which nothing is wrong with types and times.
pub fn resolve_all(
    alloc: Global,
    tree: Tree,
    types: Vec<FixType>,
    times: Times,
) -> Result<Resolved, Memory>
    requires types_accepted { type_refusal tree.table.rows ≡ None }
    requires times_accepted { HasTimeRefusal tree.table None }
    requires one_type_each { length types.items ≡ length tree.table.rows }
    requires are_types { (b : ℕ) → b < length tree.table.rows →
        HasType tree.table.rows b (type_at types.items b) }
    requires are_times { AreTimes tree.table times }
    ensures tree { IfOk result (λ r. r.tree ≡ tree) }
    ensures types { IfOk result (λ r. r.types ≡ types.items) }
    ensures times { IfOk result (λ r. r.times ≡ times) }
    ensures ops { IfOk result (λ r. r.ops
        ≡ by_row tree.table.rows (op_in tree.table.rows types.items times.delays)) }
{
    let ops = operations(
        alloc,
        tree.table(),
        types.as_slice(),
        times.delays.as_slice(),
    )?;
    Ok(Resolved {
        tree,
        types,
        ops,
        times,
    })
}

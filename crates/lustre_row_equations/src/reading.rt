// What is known of a row by its number.
ghost use Rattle.std.specs.Prelude.{◌≡◌, ◌<◌, All, IfOk, length, map, slice_index_or};
ghost use Rattle.diagram_blocks.specs.declared.Op.TheVariants.{Nothing};
ghost use Rattle.diagram_meaning.specs.Diagram.{op_at as op_of_row, time_at as time_of_row, type_at as type_of_row};
ghost use Rattle.diagram_meaning.specs.ResolvedTree.{diagram_of};

use base_core::Memory;
use base_fixed_point::FixType;
use diagram_blocks::Op;
use diagram_meaning::{Resolved, Time};
use std::alloc::Global;

// What the row at a place computes.
fn op_among(ops: &[Op], b: u32) -> Op
    ensures { result ≡ slice_index_or ops.now b Nothing }
{
    match ops.get(b as usize) {
        Some(op) => *op,
        None => Op::Nothing,
    }
}

/// What row `b` computes.
pub(crate) fn op_at(r: &Resolved, b: u32) -> Op
    ensures { result ≡ op_of_row (diagram_of r.now) b }
{
    op_among(r.ops.as_slice(), b)
}

/// The type of row `b`.
pub(crate) fn type_at(r: &Resolved, b: u32) -> FixType
    requires { b < length r.now.tree.table.rows }
    ensures { result ≡ type_of_row r.now.types b }
{
    r.types[b as usize]
}

/// The sample time of row `b`.
pub(crate) fn time_at(r: &Resolved, b: u32) -> Time
    requires { b < length r.now.tree.table.rows }
    ensures { result ≡ time_of_row (diagram_of r.now) b }
{
    r.times.run[b as usize]
}

/// The types of some rows.
pub(crate) fn types_of(alloc: Global, r: &Resolved, rows: &[u32]) -> Result<Vec<FixType>, Memory>
    requires { All (λ b. b < length r.now.tree.table.rows) rows.now }
    ensures { IfOk result (λ v. v.items ≡ map (type_of_row r.now.types) rows.now) }
{
    let mut types = Vec::new(alloc);
    for b in rows {
        types.push(type_at(r, *b))?;
    }
    Ok(types)
}

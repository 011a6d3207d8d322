ghost use Rattle.std.specs.Prelude.{◌≡◌, ◌<◌, [], All, IfOk, if◌then◌else◌, length, map};
ghost use Rattle.diagram_meaning.specs.Diagram.{type_at as type_of_row};
ghost use Rattle.diagram_meaning.specs.ResolvedTree.{diagram_of};
ghost use Rattle.diagram_meaning.specs.Inputs.{wires_of_rows};
ghost use Rattle.diagram_blocks.specs.Kinds.{is_inport as is_inport_kind};
ghost use Rattle.modules_profile.specs.Locals.{local_row as local_row_of};

use crate::LocalRow;
use crate::reading::{delays_at, op_at, time_at, type_at};
use base_core::{Memory, Wires};
use base_fixed_point::FixType;
use diagram_meaning::{Resolved, Row};
use std::alloc::Global;

/// The rows of a system with all that their code is made from.
pub(crate) fn local_rows(alloc: Global, r: &Resolved, own: &[u32]) -> Result<Vec<LocalRow>, Memory>
    requires { All (λ b. b < length r.now.tree.table.rows) own.now }
    ensures { IfOk result (λ v. v.items
        ≡ map (local_row_of (diagram_of r.now) r.now.times.delays) own.now) }
{
    let mut rows = Vec::new(alloc);
    for b in own {
        rows.push(local_row(alloc, r, *b)?)?;
    }
    Ok(rows)
}

fn local_row(alloc: Global, r: &Resolved, b: u32) -> Result<LocalRow, Memory>
    requires { b < length r.now.tree.table.rows }
    ensures { IfOk result (λ row. row ≡ local_row_of (diagram_of r.now) r.now.times.delays b) }
{
    let row = r.row(b);
    Ok(LocalRow {
        row: b,
        kind: row.kind,
        inputs: own_wires(alloc, row)?,
        op: op_at(r, b),
        out: type_at(r, b),
        time: time_at(r, b),
        delays: delays_at(r, b),
    })
}

// The wires of a row inside its own system; an Inport has none there.
fn own_wires(alloc: Global, row: &Row) -> Result<Wires, Memory>
    ensures { IfOk result (λ wires. wires
        ≡ (if is_inport_kind row.now.kind then [] else row.now.inputs)) }
{
    if row.kind.is_inport() {
        Ok(Wires::new(Vec::new(alloc)))
    } else {
        copy_wires(alloc, row)
    }
}

/// The wires of a row.
pub(crate) fn copy_wires(alloc: Global, row: &Row) -> Result<Wires, Memory>
    ensures { IfOk result (λ wires. wires ≡ row.now.inputs) }
{
    Ok(Wires::new(Vec::from_slice(alloc, row.inputs.wires())?))
}

/// The wires that enter some Inports, one after another.
pub(crate) fn entering_wires(alloc: Global, r: &Resolved, inports: &[u32]) -> Result<Wires, Memory>
    requires { All (λ b. b < length r.now.tree.table.rows) inports.now }
    ensures { IfOk result (λ wires. wires ≡ wires_of_rows r.now.tree.table.rows inports.now) }
{
    let mut wires = Vec::new(alloc);
    for i in inports {
        wires.extend_from_slice(r.row(*i).inputs.wires())?;
    }
    Ok(Wires::new(wires))
}

/// The types of some rows.
pub(crate) fn types_of(alloc: Global, r: &Resolved, rows: &[u32]) -> Result<Vec<FixType>, Memory>
    requires { All (λ b. b < length r.now.tree.table.rows) rows.now }
    ensures { IfOk result (λ v. v.items ≡ map (type_of_row r.now.types) rows.now) }
{
    let mut types = Vec::new(alloc);
    for b in rows {
        types.push(type_at(r, *b))?;
    }
    Ok(types)
}

ghost use Rattle.std.specs.Prelude.{◌≡◌, ◌<◌, ◌-◌, [], ◌∷◌, None, All, IfOk, length, map};
ghost use Rattle.diagram_meaning.specs.Diagram.{op_at, time_at, type_at};
ghost use Rattle.diagram_meaning.specs.ResolvedTree.{IsResolvedTree, diagram_of};
ghost use Rattle.diagram_meaning.specs.Rows as rows;
ghost use Rattle.diagram_meaning.specs.Run as run;
ghost use Rattle.diagram_meaning.specs.SampleTimes as times;
ghost use Rattle.diagram_typed_runs.specs.Traces.{HasInputs};

use base_core::Memory;
use base_fixed_point::FixType;
use diagram_blocks::{Kind, Op};
use diagram_meaning::{Resolved, Row, Time};
use std::alloc::Global;

// How many rows there are.
pub(crate) fn row_count(r: &Resolved) -> usize
    ensures count { result ≡ length r.now.tree.table.rows }
    ensures resolved { IsResolvedTree r.now }
{
    r.tree.table().rows.len()
}

// Row `b`.
pub(crate) fn row(r: &Resolved, b: usize) -> &Row
    requires { b < length r.now.tree.table.rows }
    ensures row { result.now ≡ rows.row_at r.now.tree.table.rows b }
    ensures resolved { IsResolvedTree r.now }
{
    &r.tree.table().rows[b]
}

// What row `b` computes.
pub(crate) fn op(r: &Resolved, b: usize) -> Op
    requires { b < length r.now.tree.table.rows }
    ensures op { result ≡ op_at (diagram_of r.now) b }
    ensures resolved { IsResolvedTree r.now }
{
    r.ops[b]
}

// The type of row `b`.
pub(crate) fn type_of(r: &Resolved, b: usize) -> FixType
    requires { b < length r.now.tree.table.rows }
    ensures { result ≡ type_at r.now.types b }
{
    r.types[b]
}

// The sample time of row `b`.
pub(crate) fn time(r: &Resolved, b: usize) -> Time
    requires { b < length r.now.tree.table.rows }
    ensures { result ≡ time_at (diagram_of r.now) b }
{
    r.times.run[b]
}

// Whether a tick is one of the ticks of a sample time.
pub(crate) fn hits(time: Time, tick: usize) -> bool
    ensures { result ≡ times.hit time tick }
{
    tick % time.period as usize == time.offset as usize
}

// The values of the inputs of row `b`; an Inport of the root reads the row of the trace.
pub(crate) fn input_values(
    alloc: Global,
    r: &Resolved,
    inputs: &[i64],
    values: &[i64],
    b: usize,
) -> Result<Vec<i64>, Memory>
    requires inputs { HasInputs (diagram_of r.now) None inputs.now }
    requires values { length values.now ≡ length r.now.tree.table.rows }
    requires row { b < length r.now.tree.table.rows }
    ensures { IfOk result (λ v. v.items ≡ run.input_values (diagram_of r.now) None inputs.now values.now
        [] b) }
{
    let row = row(r, b);
    match (row.kind, row.owner) {
        (Kind::Inport { port }, None) => wire_values(alloc, inputs, &[port - 1]),
        _ => wire_values(alloc, values, row.inputs.wires()),
    }
}

// The values that some wires read.
fn wire_values(alloc: Global, values: &[i64], wires: &[u32]) -> Result<Vec<i64>, Memory>
    requires { All (λ c. c < length values.now) wires.now }
    ensures { IfOk result (λ v. v.items ≡ map (run.value_at values.now) wires.now) }
{
    let mut read = Vec::new(alloc);
    for wire in wires {
        read.push(values[*wire as usize])?;
    }
    Ok(read)
}

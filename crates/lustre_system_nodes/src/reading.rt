// What a resolved tree says of a row and of a system.
ghost use Rattle.std.specs.Prelude.{◌≡◌, ◌<◌, Some, length, slice_get};
ghost use Rattle.diagram_meaning.specs.Diagram as diagram;
ghost use Rattle.diagram_meaning.specs.Nested.{row_of, system_of};
ghost use Rattle.diagram_meaning.specs.ResolvedTree.{diagram_of};
ghost use Rattle.diagram_meaning.specs.Rows.{row_at};
ghost use Rattle.modules_profile.specs.Systems.{children_of, control_of_system, own_of};

use base_core::Control;
use diagram_blocks::{Kind, Op};
use diagram_meaning::{Resolved, Row, Subsystem};

/// The rows of the table.
pub(crate) fn rows_of(r: &Resolved) -> &[Row]
    ensures { result.now ≡ r.now.tree.table.rows }
{
    r.tree.table().rows.as_slice()
}

/// What row `b` is.
pub(crate) fn kind_at(rows: &[Row], b: u32) -> Kind
    ensures { result ≡ (row_at rows.now b).kind }
{
    match rows.get(b as usize) {
        Some(row) => row.kind,
        None => Kind::Terminator,
    }
}

/// The row that an input of row `b` reads, where it has one.
pub(crate) fn wire_at(rows: &[Row], b: u32, place: usize) -> Option<u32>
    ensures { result ≡ slice_get (row_at rows.now b).inputs place }
{
    match rows.get(b as usize) {
        Some(row) => row.inputs.wires().get(place).copied(),
        None => None,
    }
}

/// What row `b` computes.
pub(crate) fn op_at(r: &Resolved, b: u32) -> Op
    ensures { result ≡ diagram.op_at (diagram_of r.now) b }
{
    match r.ops.as_slice().get(b as usize) {
        Some(op) => *op,
        None => Op::Nothing,
    }
}

/// The row of a system, none for the root.
pub(crate) fn row(s: &Subsystem) -> Option<u32>
    ensures { result ≡ row_of (system_of s.now) }
{
    s.row
}

/// How a system is controlled.
pub(crate) fn control(s: &Subsystem) -> Control
    ensures { result ≡ control_of_system (system_of s.now) }
{
    s.control
}

/// The rows of a system, in the order of the file.
pub(crate) fn own(s: &Subsystem) -> &[u32]
    ensures { result.now ≡ own_of (system_of s.now) }
{
    s.own.wires()
}

/// The system at a place of those directly inside it.
pub(crate) fn child(s: &Subsystem, place: usize) -> &Subsystem
    requires { place < length (children_of (system_of s.now)) }
    ensures { slice_get (children_of (system_of s.now)) place ≡ Some (system_of result.now) }
{
    &s.children[place]
}

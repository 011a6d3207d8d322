// What a resolved tree has of each row.
ghost use Rattle.std.specs.Prelude.{◌≡◌, ◌<◌, length};
ghost use Rattle.diagram_meaning.specs.Diagram.{op_at as op_of_row, time_at as time_of_row, type_at as type_of_row};
ghost use Rattle.diagram_meaning.specs.ResolvedTree.{IsResolvedTree, diagram_of};

use base_fixed_point::FixType;
use diagram_blocks::Op;
use diagram_meaning::{Resolved, Time};

/// How many rows there are.
pub(crate) fn row_count(r: &Resolved) -> u32
    ensures count { result ≡ length r.now.tree.table.rows }
    ensures resolved { IsResolvedTree r.now }
{
    r.tree.table().rows.len() as u32
}

/// The type of row `b`.
pub(crate) fn type_at(r: &Resolved, b: u32) -> FixType
    requires { b < length r.now.tree.table.rows }
    ensures { result ≡ type_of_row r.now.types b }
{
    r.types[b as usize]
}

/// The operation of row `b`.
pub(crate) fn op_at(r: &Resolved, b: u32) -> Op
    requires { b < length r.now.tree.table.rows }
    ensures { result ≡ op_of_row (diagram_of r.now) b }
{
    r.ops[b as usize]
}

/// The sample time of row `b`.
pub(crate) fn time_at(r: &Resolved, b: u32) -> Time
    requires { b < length r.now.tree.table.rows }
    ensures { result ≡ time_of_row (diagram_of r.now) b }
{
    r.times.run[b as usize]
}

ghost use Rattle.std.specs.Prelude.{◌≡◌, ◌<◌, false, length, slice_index_or};
ghost use Rattle.diagram_meaning.specs.Diagram.{op_at as op_of_row, time_at as time_of_row, type_at as type_of_row};
ghost use Rattle.diagram_meaning.specs.ResolvedTree.{diagram_of};

use base_fixed_point::FixType;
use diagram_blocks::Op;
use diagram_meaning::{Resolved, Time};

/// The type of row `b`.
pub(crate) fn type_at(r: &Resolved, b: u32) -> FixType
    requires { b < length r.now.tree.table.rows }
    ensures { result ≡ type_of_row r.now.types b }
{
    r.types[b as usize]
}

/// The operation of row `b`.
pub(crate) fn op_at(r: &Resolved, b: u32) -> Op
    requires { b < length r.now.tree.table.rows }
    ensures { result ≡ op_of_row (diagram_of r.now) b }
{
    r.ops[b as usize]
}

/// The sample time of row `b`.
pub(crate) fn time_at(r: &Resolved, b: u32) -> Time
    requires { b < length r.now.tree.table.rows }
    ensures { result ≡ time_of_row (diagram_of r.now) b }
{
    r.times.run[b as usize]
}

/// Whether row `b` delays between rates.
pub(crate) fn delays_at(r: &Resolved, b: u32) -> bool
    requires { b < length r.now.tree.table.rows }
    ensures { result ≡ slice_index_or r.now.times.delays b false }
{
    r.times.delays[b as usize]
}

// The rows inside a subsystem: those after its own, without a gap.
ghost use Rattle.std.specs.Prelude.{◌≡◌, ◌<◌, length};
ghost use Rattle.diagram_meaning.specs.Rows.{row_at};
ghost use Rattle.diagram_same.specs.Interiors.{IsInterior, is_from};

use crate::reading::row_count;
use diagram_meaning::Resolved;

/// The rows inside subsystem `row`: those after it and before `end`.
#[derive(Clone, Copy, Drop)]
pub(crate) struct Interior {
    pub(crate) row: u32,
    pub(crate) end: u32,
}

/// The rows inside subsystem `e`.
pub(crate) fn interior_of(r: &Resolved, e: u32) -> Interior
    requires { e < length r.now.tree.table.rows }
    ensures row { result.row ≡ e }
    ensures inside { IsInterior r.now.tree.table.rows e result.end }
{
    let n = row_count(r);
    let mut end = e + 1;
    while end < n && is_owned_from(r, e, end) {
        end += 1;
    }
    Interior { row: e, end }
}

/// Whether the owner of row `b` is row `e` or a later one.
fn is_owned_from(r: &Resolved, e: u32, b: u32) -> bool
    requires { b < length r.now.tree.table.rows }
    ensures { result ≡ is_from e (row_at r.now.tree.table.rows b).owner }
{
    match r.row(b).owner {
        Some(o) => e <= o,
        None => false,
    }
}

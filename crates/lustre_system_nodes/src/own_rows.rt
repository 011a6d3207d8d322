// The rows of a system, with what is inside those that are subsystems.
ghost use Rattle.std.specs.Prelude.{◌≡◌, Some, true, false, IfOk, map};
ghost use Rattle.diagram_blocks.specs.Kinds as kinds;
ghost use Rattle.diagram_meaning.specs.Nested.{Agrees, row_of, system_of};
ghost use Rattle.diagram_meaning.specs.Rows as meaning;
ghost use Rattle.lustre_system_nodes.specs.OwnRows as made;

use crate::reading::{child, kind_at, own, rows_of};
use base_core::{Memory, Wires};
use diagram_blocks::Kind;
use diagram_meaning::{Resolved, Row, Subsystem};
use lustre_expressions::ports_of;
use std::alloc::Global;

/// A row of a system; where it is a subsystem, with the Outports and the Inports inside it by number.
#[derive(Drop)]
pub struct OwnRow {
    /// Its number in the table.
    pub row: u32,
    /// The Outports inside it.
    pub outputs: Wires,
    /// The Inports inside it.
    pub inputs: Wires,
}

/// Whether row `b` is a subsystem.
pub(crate) fn is_subsystem(rows: &[Row], b: u32) -> bool
    ensures { result ≡ kinds.is_subsystem (meaning.row_at rows.now b).kind }
{
    matches!(kind_at(rows, b), Kind::SubSystem(_))
}

// A row that is no subsystem.
fn plain_row(alloc: Global, rows: &[Row], b: u32) -> OwnRow
    requires { kinds.is_subsystem (meaning.row_at rows.now b).kind ≡ false }
    ensures { result ≡ made.own_row rows.now b }
{
    OwnRow {
        row: b,
        outputs: Wires::new(Vec::new(alloc)),
        inputs: Wires::new(Vec::new(alloc)),
    }
}

// The row of a system directly inside.
fn subsystem_row(alloc: Global, rows: &[Row], b: u32, inside: &Subsystem) -> Result<OwnRow, Memory>
    requires is_subsystem { kinds.is_subsystem (meaning.row_at rows.now b).kind ≡ true }
    requires system { Agrees rows.now (system_of inside.now) }
    requires row { row_of (system_of inside.now) ≡ Some b }
    ensures { IfOk result (λ row. row ≡ made.own_row rows.now b) }
{
    Ok(OwnRow {
        row: b,
        outputs: Wires::new(ports_of(alloc, rows, own(inside), true)?),
        inputs: Wires::new(ports_of(alloc, rows, own(inside), false)?),
    })
}

/// The rows of a system, in the order of the file.
pub(crate) fn own_rows(alloc: Global, r: &Resolved, s: &Subsystem) -> Result<Vec<OwnRow>, Memory>
    requires { Agrees r.now.tree.table.rows (system_of s.now) }
    ensures { let rows = r.now.tree.table.rows in IfOk result
        (λ v. v.items ≡ map (made.own_row rows) (meaning.rows_of rows (row_of (system_of s.now)))) }
{
    let rows = rows_of(r);
    let own = own(s);
    let mut list = Vec::new(alloc);
    let mut place = 0;
    for b in own {
        if is_subsystem(rows, *b) {
            list.push(subsystem_row(alloc, rows, *b, child(s, place))?)?;
            place += 1;
        } else {
            list.push(plain_row(alloc, rows, *b))?;
        }
    }
    Ok(list)
}

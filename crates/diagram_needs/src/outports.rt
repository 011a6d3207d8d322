ghost use Rattle.std.specs.Prelude.{◌≡◌, ◌<◌, ◌≤◌, ◌==◌, ◌&&◌, All, IfOk, filter, find, length};
ghost use Rattle.diagram_meaning.specs.Rows.{row_at, rows_of, same_system as is_same_system, outports_of};
ghost use Rattle.diagram_blocks.specs.Kinds.{is_outport, port_of as port_of_kind};

use base_core::Memory;
use diagram_meaning::{Row, same_system};
use std::alloc::Global;

// The Outports of a system by port.
pub(crate) fn outports(alloc: Global, rows: &[Row], system: Option<u32>) -> Result<Vec<u32>, Memory>
    requires { length rows.now ≤ 20000 }
    ensures { IfOk result (λ v. v.items ≡ outports_of rows.now system) }
{
    let own = own_outports(alloc, rows, system)?;
    let mut found = Vec::new(alloc);
    for k in 0..own.len() {
        if let Some(b) = row_with_port(rows, &own, k + 1) {
            found.push(b)?;
        }
    }
    Ok(found)
}

// The same in the order of the file.
fn own_outports(alloc: Global, rows: &[Row], system: Option<u32>) -> Result<Vec<u32>, Memory>
    requires { length rows.now ≤ 20000 }
    ensures { IfOk result (λ v. v.items
        ≡ filter (λ b. is_outport (row_at rows.now b).kind) (rows_of rows.now system)) }
{
    let mut own = Vec::new(alloc);
    for b in 0..rows.len() {
        if is_outport_of(&rows[b], system) {
            own.push(b as u32)?;
        }
    }
    Ok(own)
}

// Whether a row is an Outport of the system.
fn is_outport_of(row: &Row, system: Option<u32>) -> bool
    ensures { result ≡ (is_same_system row.now.owner system && is_outport row.now.kind) }
{
    same_system(row.owner, system) && row.kind.is_outport()
}

// The first of some rows with the port.
fn row_with_port(rows: &[Row], own: &[u32], port: usize) -> Option<u32>
    requires { All (λ b. b < length rows.now) own.now }
    ensures { result ≡ find (λ b. port_of_kind (row_at rows.now b).kind == port) own.now }
{
    for b in own {
        if has_port(&rows[*b as usize], port) {
            return Some(*b);
        }
    }
    None
}

// Whether a row has the port.
fn has_port(row: &Row, port: usize) -> bool
    ensures { result ≡ (port_of_kind row.now.kind == port) }
{
    row.kind.port() as usize == port
}

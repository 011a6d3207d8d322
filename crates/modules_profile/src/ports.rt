ghost use Rattle.std.specs.Prelude.{◌≡◌, ◌<◌, ◌==◌, All, IfOk, IfSome, filter, filter_map, find, length};
ghost use Rattle.std.specs.List.{range_with_len};
ghost use Rattle.diagram_meaning.specs.Rows.{row_at as row_of_table};
ghost use Rattle.diagram_blocks.specs.Kinds.{is_inport as is_inport_kind, is_outport as is_outport_kind, port_of as port_of_kind};
ghost use Rattle.modules_profile.specs.Locals.{ported};

use base_core::Memory;
use diagram_meaning::Resolved;
use std::alloc::Global;

/// The Inports among the rows of a system, by port.
pub(crate) fn inports(alloc: Global, r: &Resolved, own: &[u32]) -> Result<Vec<u32>, Memory>
    requires { All (λ b. b < length r.now.tree.table.rows) own.now }
    ensures inports { IfOk result (λ v. v.items ≡ ported r.now.tree.table.rows is_inport_kind own.now) }
    ensures rows { IfOk result (λ v. All (λ b. b < length r.now.tree.table.rows) v.items) }
{
    let inports = own_inports(alloc, r, own)?;
    by_port(alloc, r, &inports)
}

/// The Outports among the rows of a system, by port.
pub(crate) fn outports(alloc: Global, r: &Resolved, own: &[u32]) -> Result<Vec<u32>, Memory>
    requires { All (λ b. b < length r.now.tree.table.rows) own.now }
    ensures outports { IfOk result (λ v. v.items ≡ ported r.now.tree.table.rows is_outport_kind own.now) }
    ensures rows { IfOk result (λ v. All (λ b. b < length r.now.tree.table.rows) v.items) }
{
    let outports = own_outports(alloc, r, own)?;
    by_port(alloc, r, &outports)
}

// The Inports in the order of the file.
fn own_inports(alloc: Global, r: &Resolved, own: &[u32]) -> Result<Vec<u32>, Memory>
    requires { All (λ b. b < length r.now.tree.table.rows) own.now }
    ensures inports { IfOk result (λ v. v.items
        ≡ filter (λ b. is_inport_kind (row_of_table r.now.tree.table.rows b).kind) own.now) }
    ensures rows { IfOk result (λ v. All (λ b. b < length r.now.tree.table.rows) v.items) }
{
    let mut inports = Vec::new(alloc);
    for b in own {
        if r.row(*b).kind.is_inport() {
            inports.push(*b)?;
        }
    }
    Ok(inports)
}

// The Outports in the order of the file.
fn own_outports(alloc: Global, r: &Resolved, own: &[u32]) -> Result<Vec<u32>, Memory>
    requires { All (λ b. b < length r.now.tree.table.rows) own.now }
    ensures outports { IfOk result (λ v. v.items
        ≡ filter (λ b. is_outport_kind (row_of_table r.now.tree.table.rows b).kind) own.now) }
    ensures rows { IfOk result (λ v. All (λ b. b < length r.now.tree.table.rows) v.items) }
{
    let mut outports = Vec::new(alloc);
    for b in own {
        if r.row(*b).kind.is_outport() {
            outports.push(*b)?;
        }
    }
    Ok(outports)
}

// These rows by their ports.
fn by_port(alloc: Global, r: &Resolved, rows: &[u32]) -> Result<Vec<u32>, Memory>
    requires { All (λ b. b < length r.now.tree.table.rows) rows.now }
    ensures found { IfOk result (λ v. v.items
        ≡ filter_map
        (λ k. find (λ b. port_of_kind (row_of_table r.now.tree.table.rows b).kind == k) rows.now)
        (range_with_len 1 (length rows.now))) }
    ensures rows { IfOk result (λ v. All (λ b. b < length r.now.tree.table.rows) v.items) }
{
    let mut found = Vec::new(alloc);
    for k in 0..rows.len() {
        if let Some(b) = row_with_port(r, rows, k + 1) {
            found.push(b)?;
        }
    }
    Ok(found)
}

// The first of some rows with the port.
fn row_with_port(r: &Resolved, rows: &[u32], port: usize) -> Option<u32>
    requires { All (λ b. b < length r.now.tree.table.rows) rows.now }
    ensures rows { IfSome result (λ b. b < length r.now.tree.table.rows) }
    ensures first { result
        ≡ find (λ b. port_of_kind (row_of_table r.now.tree.table.rows b).kind == port) rows.now }
{
    for b in rows {
        if r.row(*b).kind.port() as usize == port {
            return Some(*b);
        }
    }
    None
}

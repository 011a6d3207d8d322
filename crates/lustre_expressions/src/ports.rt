// The Inports and the Outports of a system, by number.
ghost use Rattle.std.specs.Prelude.{◌≡◌, ◌==◌, IfOk, find};
ghost use Rattle.diagram_blocks.specs.Kinds as kinds;
ghost use Rattle.diagram_meaning.specs.Rows.{row_at, rows_of, by_port};
ghost use Rattle.lustre_expressions.specs.PortKinds as ports;

use base_core::Memory;
use diagram_meaning::Row;
use std::alloc::Global;

// Whether a row is an Outport, or else an Inport.
fn is_port(rows: &[Row], outputs: bool, b: u32) -> bool
    ensures { result ≡ ports.is_port outputs (row_at rows.now b).kind }
{
    match rows.get(b as usize) {
        Some(row) => {
            if outputs {
                row.kind.is_outport()
            } else {
                row.kind.is_inport()
            }
        }
        None => false,
    }
}

// The port of a row, 0 where it has none.
fn port_at(rows: &[Row], b: u32) -> u32
    ensures { result ≡ kinds.port_of (row_at rows.now b).kind }
{
    match rows.get(b as usize) {
        Some(row) => row.kind.port(),
        None => 0,
    }
}

// The Outports or the Inports among rows, in the order of the file.
fn ports_among(alloc: Global, rows: &[Row], own: &[u32], outputs: bool) -> Result<Vec<u32>, Memory>
    ensures { IfOk result (λ v. v.items ≡ ports.ports_among rows.now own.now outputs) }
{
    let mut among = Vec::new(alloc);
    for b in own {
        if is_port(rows, outputs, *b) {
            among.push(*b)?;
        }
    }
    Ok(among)
}

// The first of some rows with a port.
fn with_port(rows: &[Row], among: &[u32], port: usize) -> Option<u32>
    ensures { result ≡ find (λ b. kinds.port_of (row_at rows.now b).kind == port) among.now }
{
    for b in among {
        if port_at(rows, *b) as usize == port {
            return Some(*b);
        }
    }
    None
}

// Some rows by their ports.
fn ordered(alloc: Global, rows: &[Row], among: &[u32]) -> Result<Vec<u32>, Memory>
    ensures { IfOk result (λ v. v.items ≡ ports.ordered rows.now among.now) }
{
    let mut found = Vec::new(alloc);
    for k in 0..among.len() {
        if let Some(b) = with_port(rows, among, k + 1) {
            found.push(b)?;
        }
    }
    Ok(found)
}

/// The Outports of a system, or else its Inports, by number, where these are its own rows.
pub fn ports_of(alloc: Global, rows: &[Row], own: &[u32], outputs: bool) -> Result<Vec<u32>, Memory>
    ensures { IfOk result (λ v. v.items
        ≡ ports.ordered rows.now (ports.ports_among rows.now own.now outputs)) }
{
    let among = ports_among(alloc, rows, own, outputs)?;
    ordered(alloc, rows, among.as_slice())
}

ghost use Rattle.std.specs.Prelude.{◌≡◌, ◌==◌, IfOk, find, map};
ghost use Rattle.diagram_blocks.specs.Kinds.{is_inport as is_inport_kind, is_outport as is_outport_kind};
ghost use Rattle.modules_profile.specs.Locals as locals;
ghost use Rattle.emit_row_facts.specs.Ported.{by_port as by_port_among, ported_among, ported_of};

use base_core::Memory;
use base_fixed_point::FixType;
use modules_profile::{Local, LocalRow};
use std::alloc::Global;

/// An Inport or an Outport of a system.
#[derive(Clone, Copy, Debug, PartialEq, Eq, Drop)]
pub struct Ported {
    /// Its port, from 1.
    pub port: u32,
    /// Its row.
    pub row: u32,
    /// The type of its value.
    pub out: FixType,
}

/// The own Inports of a system by port.
pub fn inports(alloc: Global, local: &Local) -> Result<Vec<Ported>, Memory>
    ensures { IfOk result (λ v. v.items ≡ map ported_of (locals.inports local.now)) }
{
    let among = inports_among(alloc, local.rows.as_slice())?;
    by_port(alloc, &among)
}

/// The own Outports of a system by port.
pub fn outports(alloc: Global, local: &Local) -> Result<Vec<Ported>, Memory>
    ensures { IfOk result (λ v. v.items ≡ map ported_of (locals.outports local.now)) }
{
    let among = outports_among(alloc, local.rows.as_slice())?;
    by_port(alloc, &among)
}

// The Inports in the order of the file.
fn inports_among(alloc: Global, rows: &[LocalRow]) -> Result<Vec<Ported>, Memory>
    ensures { IfOk result (λ v. v.items ≡ ported_among is_inport_kind rows.now) }
{
    let mut among = Vec::new(alloc);
    for row in rows {
        if row.kind.is_inport() {
            among.push(of_row(row))?;
        }
    }
    Ok(among)
}

// The Outports in the order of the file.
fn outports_among(alloc: Global, rows: &[LocalRow]) -> Result<Vec<Ported>, Memory>
    ensures { IfOk result (λ v. v.items ≡ ported_among is_outport_kind rows.now) }
{
    let mut among = Vec::new(alloc);
    for row in rows {
        if row.kind.is_outport() {
            among.push(of_row(row))?;
        }
    }
    Ok(among)
}

fn of_row(row: &LocalRow) -> Ported
    ensures { result ≡ ported_of row.now }
{
    Ported {
        port: row.kind.port(),
        row: row.row,
        out: row.out,
    }
}

// These by their ports. A system has at most 32 of either kind.
fn by_port(alloc: Global, among: &[Ported]) -> Result<Vec<Ported>, Memory>
    ensures { IfOk result (λ v. v.items ≡ by_port_among among.now) }
{
    let mut found = Vec::new(alloc);
    for k in 0..among.len() {
        if let Some(ported) = with_port(among, k + 1) {
            found.push(ported)?;
        }
    }
    Ok(found)
}

// The first of some with a port.
fn with_port(among: &[Ported], port: usize) -> Option<Ported>
    ensures { result ≡ find (λ e. e.port == port) among.now }
{
    for ported in among {
        if ported.port as usize == port {
            return Some(*ported);
        }
    }
    None
}

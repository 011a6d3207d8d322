ghost use Rattle.std.specs.Prelude.{◌≡◌, ◌≤◌, Some, All, IfOk, length};
ghost use Rattle.diagram_meaning.specs.Rows.{inports_of, outports_of, system_control as control_of_system};
ghost use Rattle.diagram_blocks.specs.Kinds.{is_inport, is_outport};
ghost use Rattle.base_core.specs.Ports.{control_ports};
ghost use Rattle.modules_interfaces.specs.PortCounts.{AreCounts, place_of};

use crate::counts::count_at;
use base_core::{Control, Memory, Port};
use diagram_meaning::{Resolved, Row};
use std::alloc::Global;

/// The rows of the table.
pub(crate) fn rows_of(r: &Resolved) -> &[Row]
    ensures rows { result.now ≡ r.now.tree.table.rows }
    ensures few { length result.now ≤ 20_000 }
    ensures owners { All (λ row. place_of row.owner ≤ length result.now) result.now }
{
    r.tree.table().rows.as_slice()
}

/// How many inputs a system has, by the counts of all systems.
pub(crate) fn inputs_of(r: &Resolved, counts: &[u32], system: Option<u32>) -> u32
    requires { AreCounts is_inport r.now.tree.table.rows counts.now }
    ensures { result ≡ length (inports_of r.now.tree.table.rows system) }
{
    r.is_resolved();
    count_at(counts, system)
}

/// How many outputs a system has, by the counts of all systems.
pub(crate) fn outputs_of(r: &Resolved, counts: &[u32], system: Option<u32>) -> u32
    requires { AreCounts is_outport r.now.tree.table.rows counts.now }
    ensures is { result ≡ length (outports_of r.now.tree.table.rows system) }
    ensures few { result ≤ 32 }
{
    r.is_resolved();
    count_at(counts, system)
}

/// How the system of a row is controlled.
fn control_at(rows: &[Row], e: u32) -> Control
    ensures { result ≡ control_of_system rows.now (Some e) }
{
    match rows.get(e as usize) {
        Some(row) => row.kind.control(),
        None => Control::Plain,
    }
}

/// How a system is controlled.
fn system_control(r: &Resolved, system: Option<u32>) -> Control
    ensures { result ≡ control_of_system r.now.tree.table.rows system }
{
    match system {
        Some(e) => control_at(rows_of(r), e),
        None => Control::Plain,
    }
}

/// The controls as ports, an enable before a trigger.
fn ports_of(alloc: Global, control: Control) -> Result<Vec<Port>, Memory>
    ensures { IfOk result (λ ports. ports.items ≡ control_ports control) }
{
    let mut ports = Vec::new(alloc);
    match control {
        Control::Plain => {}
        Control::Enabled { .. } => ports.push(Port::Enable)?,
        Control::Triggered(_) => ports.push(Port::Trigger)?,
        Control::Both { .. } => {
            ports.push(Port::Enable)?;
            ports.push(Port::Trigger)?;
        }
    }
    Ok(ports)
}

/// The controls of a system, an enable before a trigger.
///
/// Fails only when memory runs out.
pub(crate) fn controls_of(
    alloc: Global,
    r: &Resolved,
    system: Option<u32>,
) -> Result<Vec<Port>, Memory>
    ensures { IfOk result (λ ports. ports.items
        ≡ control_ports (control_of_system r.now.tree.table.rows system)) }
{
    ports_of(alloc, system_control(r, system))
}

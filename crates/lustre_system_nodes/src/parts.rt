// What the node of a system is made from.
ghost use Rattle.std.specs.Prelude.{◌≡◌, ◌+◌, ◌++◌, IfOk, OnOk, length, map};
ghost use Rattle.std.specs.List.{range_with_len};
ghost use Rattle.base_core.specs.Ports as ports;
ghost use Rattle.base_core.specs.declared.base.Port.TheVariants.{Number as number};
ghost use Rattle.diagram_meaning.specs.Nested.{Agrees, row_of, system_of};
ghost use Rattle.lustre_system_nodes.specs.Parts.{ArePartsOf};

use crate::own_rows::{OwnRow, own_rows};
use crate::reading::{control, own, row, rows_of};
use base_core::{Control, Memory, Port, Wires};
use diagram_meaning::{Resolved, Subsystem};
use lustre_expressions::{ports_of, small};
use std::alloc::Global;

/// What the node of a system is made from.
#[derive(Drop)]
pub struct Parts {
    /// Its row; none for the root.
    pub row: Option<u32>,
    /// How it is controlled.
    pub control: Control,
    /// Its inputs, by number, and then its controls.
    pub ports: Vec<Port>,
    /// Its Outports, by number.
    pub outputs: Wires,
    /// Its own rows, in the order of the file.
    pub own: Vec<OwnRow>,
}

// Adds the inputs that controls are.
fn push_controls(control: Control, list: &mut Vec<Port>) -> Result<(), Memory>
    ensures { OnOk result (list.new.items ≡ list.old.items ++ ports.control_ports control) }
{
    match control {
        Control::Plain => {}
        Control::Enabled { .. } => list.push(Port::Enable)?,
        Control::Triggered(_) => list.push(Port::Trigger)?,
        Control::Both { .. } => {
            list.push(Port::Enable)?;
            list.push(Port::Trigger)?;
        }
    }
    Ok(())
}

// The inputs of a system with so many Inports.
fn input_ports(alloc: Global, inports: usize, control: Control) -> Result<Vec<Port>, Memory>
    ensures { IfOk result (λ v. v.items
        ≡ map number (range_with_len 1 inports) ++ ports.control_ports control) }
{
    let mut list = Vec::new(alloc);
    for k in 0..inports {
        list.push(Port::Number(small(k + 1)?))?;
    }
    push_controls(control, &mut list)?;
    Ok(list)
}

/// What the node of a system of a resolved tree is made from.
pub(crate) fn parts_of(alloc: Global, r: &Resolved, s: &Subsystem) -> Result<Parts, Memory>
    requires { Agrees r.now.tree.table.rows (system_of s.now) }
    ensures row { IfOk result (λ parts. parts.row ≡ row_of (system_of s.now)) }
    ensures parts { IfOk result (λ parts. ArePartsOf r.now.tree.table.rows parts) }
{
    let rows = rows_of(r);
    let control = control(s);
    let inports = ports_of(alloc, rows, own(s), false)?;
    let outports = ports_of(alloc, rows, own(s), true)?;
    Ok(Parts {
        row: row(s),
        control,
        ports: input_ports(alloc, inports.len(), control)?,
        outputs: Wires::new(outports),
        own: own_rows(alloc, r, s)?,
    })
}

/// How many inputs the node of a system has: three more than the system.
pub(crate) fn input_count(parts: &Parts) -> Result<u32, Memory>
    ensures { IfOk result (λ n. n ≡ 3 + length parts.now.ports.items) }
{
    let count = small(parts.ports.len())?;
    match count.checked_add(3) {
        Some(all) => Ok(all),
        None => Err(Memory),
    }
}

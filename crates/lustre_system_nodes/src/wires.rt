// The wires that enter a system directly inside another.
ghost use Rattle.std.specs.Prelude.{◌≡◌, ◌++◌, Some, IfOk, OnOk, map};
ghost use Rattle.base_core.specs.Ports.{control_ports};
ghost use Rattle.diagram_meaning.specs.Inputs as inputs;
ghost use Rattle.diagram_meaning.specs.Rows as rows;
ghost use Rattle.modules_profile.specs.Systems.{entering_wire};

use crate::reading::{kind_at, wire_at};
use base_core::{Control, Memory};
use diagram_meaning::Row;
use std::alloc::Global;

// Adds the wires of the controls of subsystem `e`.
fn push_controls(table: &[Row], e: u32, wires: &mut Vec<Option<u32>>) -> Result<(), Memory>
    ensures { OnOk result (wires.new.items ≡ wires.old.items
        ++ map (inputs.control_row table.now (Some e)) (control_ports (rows.control_at table.now e))) }
{
    match kind_at(table, e).control() {
        Control::Plain => {}
        Control::Enabled { .. } | Control::Triggered(_) => wires.push(wire_at(table, e, 0))?,
        Control::Both { .. } => {
            wires.push(wire_at(table, e, 0))?;
            wires.push(wire_at(table, e, 1))?;
        }
    }
    Ok(())
}

/// The wire that enters each input of subsystem `e`, which has these Inports.
pub(crate) fn entering_wires(
    alloc: Global,
    table: &[Row],
    e: u32,
    inports: &[u32],
) -> Result<Vec<Option<u32>>, Memory>
    requires { inports.now ≡ rows.inports_of table.now (Some e) }
    ensures { IfOk result
        (λ v. v.items ≡ map (entering_wire table.now e) (inputs.input_ports table.now (Some e))) }
{
    let mut wires = Vec::new(alloc);
    for i in inports {
        wires.push(wire_at(table, *i, 0))?;
    }
    push_controls(table, e, &mut wires)?;
    Ok(wires)
}

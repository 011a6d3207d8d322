ghost use Rattle.std.specs.Prelude.{Contains, IfOk};
ghost use Rattle.diagram_meaning.specs.ResolvedTable.{table_of_tree};
ghost use Rattle.modules_profile.specs.Systems.{systems};
ghost use Rattle.c_interpreter.specs.States.{tree_of};
ghost use Rattle.right_driving.specs.Found.{IsFound, IsInstanceOf};
ghost use Rattle.tool_system_driver.specs.Driving.{IsMachineOf};

use crate::names::system_name;
use base_core::Memory;
use c_interpreter::Machine;
use diagram_meaning::Resolved;
use right_driving::machines_can_be_driven;
use std::alloc::Global;

// The number that a machine answered for the instance of a system.
fn found(r: &Resolved, machine: &Machine, system: Option<u32>, child: Option<u32>) -> u32
    requires { IsFound (tree_of machine.now) r.now.tree.table.rows system child }
    ensures { IsInstanceOf (tree_of machine.now) r.now.tree.table.rows system result }
{
    match child {
        Some(number) => number,
        None => unreachable!(),
    }
}

/// The number of the instance of a system in a machine of the model's code. It is in the field of the system's name, of the
/// instance of the system around it; that of the root is in the field `top` of instance 0.
///
/// Fails only when memory runs out.
pub(crate) fn instance_of(
    alloc: Global,
    r: &Resolved,
    machine: &Machine,
    system: Option<u32>,
) -> Result<u32, Memory>
    requires machine { IsMachineOf machine.now (table_of_tree r.now) }
    requires system { Contains (systems r.now.tree.table.rows) system }
    ensures { IfOk result
        (λ number. IsInstanceOf (tree_of machine.now) r.now.tree.table.rows system number) }
{
    machines_can_be_driven();
    r.is_resolved();
    let name = system_name(alloc, system)?;
    match system {
        None => Ok(found(r, machine, system, machine.child(0, name.bytes()))),
        Some(e) => {
            let around = instance_of(alloc, r, machine, r.row(e).owner)?;
            Ok(found(r, machine, system, machine.child(around, name.bytes())))
        }
    }
}

ghost use Rattle.std.specs.Prelude.{Contains, IfOk, []};
ghost use Rattle.diagram_meaning.specs.ResolvedTable.{table_of_tree};
ghost use Rattle.modules_profile.specs.Systems.{systems};
ghost use Rattle.tool_driver.specs.Driven.{Driven, StandsFor};
ghost use Rattle.tool_system_driver.specs.Driving.{IsMachineOf, IsDrivenIn};

use crate::instance::instance_of;
use crate::shape::shape_of;
use crate::system::System;
use base_core::Memory;
use c_interpreter::Machine;
use diagram_meaning::Resolved;
use right_driving::machines_can_be_driven;
use std::alloc::Global;
use tool_driver::Driver;

/// A driver of a system of a model, over a machine of the model's code as `root_start` left it. It stands for the empty
/// script of the system: nothing is called, and the next tick is the first.
///
/// Fails only when memory runs out.
pub fn driver_of(
    alloc: Global,
    r: &Resolved,
    system: System,
    machine: Machine,
) -> Result<Driver, Memory>
    requires machine { IsMachineOf machine (table_of_tree r.now) }
    requires system { Contains (systems r.now.tree.table.rows) system.row }
    ensures { IfOk result
        (λ d. (w : Driven) → IsDrivenIn machine (table_of_tree r.now) system.row w
        → StandsFor w d []) }
{
    machines_can_be_driven();
    let instance = instance_of(alloc, r, &machine, system.row)?;
    let shape = shape_of(alloc, r, system)?;
    let driver = Driver::new(alloc, machine, instance, shape)?;
    Ok(driver)
}

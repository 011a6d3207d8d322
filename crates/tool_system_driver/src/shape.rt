ghost use Rattle.std.specs.Prelude.{◌≡◌, Contains, IfOk, length, map};
ghost use Rattle.std.specs.List.{range_with_len};
ghost use Rattle.base_core.specs.declared.Port.TheVariants.{Number};
ghost use Rattle.diagram_meaning.specs.ResolvedTable.{table_of_tree};
ghost use Rattle.diagram_meaning.specs.ResolvedTree.{diagram_of};
ghost use Rattle.diagram_meaning.specs.Rows.{inports_of, outports_of};
ghost use Rattle.diagram_meaning.specs.Traces.{input_type_of};
ghost use Rattle.modules_profile.specs.Systems.{systems};
ghost use Rattle.emit_shape.specs.Names.{value_name};
ghost use Rattle.tool_driver.specs.Driven.{Driven, shape_of as shape_of_driven};
ghost use Rattle.tool_system_driver.specs.SystemShapes.{IsShapeOf, IsSystemOfModel};

use crate::controls::controls_of;
use crate::names::system_name;
use crate::ports::{Side, rows_by_port, types_at, value_names};
use crate::profile::profile_of;
use crate::reading::{rows_of, types_of};
use crate::system::System;
use base_core::{Memory, Text};
use base_fixed_point::FixType;
use diagram_meaning::Resolved;
use modules_profile::profiles_are_one;
use std::alloc::Global;
use tool_driver::DriveShape;

/// What a driver knows of a system of a model: its name, its output functions with the inputs that each takes, the types
/// of its inputs and controls, the fields of its outputs, and after how many ticks all sample times meet again.
///
/// Fails only when memory runs out.
pub fn shape_of(alloc: Global, r: &Resolved, system: System) -> Result<DriveShape, Memory>
    requires { Contains (systems r.now.tree.table.rows) system.row }
    ensures shape { IfOk result (IsShapeOf (table_of_tree r.now) system.row) }
    ensures driven { IfOk result
        (λ s. (w : Driven) → IsSystemOfModel (table_of_tree r.now) system.row w
        → s ≡ shape_of_driven w) }
{
    profiles_are_one();
    let shape = described(alloc, r, system.row)?;
    Ok(shape)
}

// The shape of the system of a row.
fn described(alloc: Global, r: &Resolved, system: Option<u32>) -> Result<DriveShape, Memory>
    requires { Contains (systems r.now.tree.table.rows) system }
    ensures { IfOk result (IsShapeOf (table_of_tree r.now) system) }
{
    Ok(DriveShape {
        name: system_name(alloc, system)?,
        profile: profile_of(alloc, r, system)?,
        inputs: input_types(alloc, r, system)?,
        controls: controls_of(alloc, r, system)?,
        outputs: output_fields(alloc, r, system)?,
        hyper: r.times.hyper,
    })
}

// The types of the inputs of a system, by number.
fn input_types(alloc: Global, r: &Resolved, system: Option<u32>) -> Result<Vec<FixType>, Memory>
    ensures { IfOk result
        (λ v. v.items
        ≡ map (λ k. input_type_of (diagram_of r.now) system (Number k))
        (range_with_len 1 (length (inports_of r.now.tree.table.rows system)))) }
{
    let inports = rows_by_port(alloc, rows_of(r), system, Side::Inputs)?;
    types_at(alloc, types_of(r), &inports)
}

// The names of the fields of the outputs of a system, by port.
fn output_fields(alloc: Global, r: &Resolved, system: Option<u32>) -> Result<Vec<Text>, Memory>
    ensures { IfOk result
        (λ v. v.items ≡ map value_name (outports_of r.now.tree.table.rows system)) }
{
    let outports = rows_by_port(alloc, rows_of(r), system, Side::Outputs)?;
    value_names(alloc, &outports)
}

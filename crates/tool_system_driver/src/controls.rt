ghost use Rattle.std.specs.Prelude.{◌≡◌, ◌<◌, All, IfOk, Contains, Some, length, map, slice_get};
ghost use Rattle.base_core.specs.Ports.{control_ports};
ghost use Rattle.diagram_meaning.specs.ResolvedTree.{diagram_of};
ghost use Rattle.diagram_meaning.specs.Rows.{system_control};
ghost use Rattle.diagram_meaning.specs.Types.{type_at};
ghost use Rattle.modules_profile.specs.Systems.{systems};
ghost use Rattle.tool_system_driver.specs.Controls.{typed_control, typed_control_of};

use crate::reading::types_of;
use base_core::{Control, Memory, Port};
use base_fixed_point::FixType;
use diagram_meaning::Resolved;
use std::alloc::Global;

// The type of the wire at a place among some.
fn wire_type(types: &[FixType], wires: &[u32], place: usize) -> FixType
    requires place { place < length wires.now }
    requires inside { All (λ c. c < length types.now) wires.now }
    ensures { (wire : _) → slice_get wires.now place ≡ Some wire → result ≡ type_at types.now wire }
{
    types[wires[place] as usize]
}

// The ports of the controls with the types of their wires, an enable before a trigger.
fn typed_controls(
    alloc: Global,
    types: &[FixType],
    control: Control,
    wires: &[u32],
) -> Result<Vec<(Port, FixType)>, Memory>
    requires each { length wires.now ≡ length (control_ports control) }
    requires inside { All (λ c. c < length types.now) wires.now }
    ensures { IfOk result
        (λ v. v.items ≡ map (typed_control types.now control wires.now) (control_ports control)) }
{
    let mut controls = Vec::new(alloc);
    match control {
        Control::Plain => {}
        Control::Enabled { .. } => controls.push((Port::Enable, wire_type(types, wires, 0)))?,
        Control::Triggered(_) => controls.push((Port::Trigger, wire_type(types, wires, 0)))?,
        Control::Both { .. } => {
            controls.push((Port::Enable, wire_type(types, wires, 0)))?;
            controls.push((Port::Trigger, wire_type(types, wires, 1)))?;
        }
    }
    Ok(controls)
}

/// The controls of a system with their types, an enable before a trigger.
///
/// Fails only when memory runs out.
pub(crate) fn controls_of(
    alloc: Global,
    r: &Resolved,
    system: Option<u32>,
) -> Result<Vec<(Port, FixType)>, Memory>
    requires { Contains (systems r.now.tree.table.rows) system }
    ensures { IfOk result
        (λ v. v.items
        ≡ map (typed_control_of (diagram_of r.now) system)
        (control_ports (system_control r.now.tree.table.rows system))) }
{
    r.is_resolved();
    match system {
        None => Ok(Vec::new(alloc)),
        Some(e) => {
            let row = r.row(e);
            typed_controls(alloc, types_of(r), row.kind.control(), row.inputs.wires())
        }
    }
}

ghost use Rattle.std.specs.Prelude.{◌≡◌, ◌≤◌, [], ◌∷◌, ◌++◌, IfOk, OnOk, length, map, zip};
ghost use Rattle.std.specs.List.{range_with_len};
ghost use Rattle.base_core.specs.declared.base.Port.TheVariants.{Number as number_port, Enable as enable_port, Trigger as trigger_port};
ghost use Rattle.base_core.specs.Ports.{control_ports as ports_of_control};
ghost use Rattle.modules_profile.specs.Locals.{bare_header, inports as inports_of};
ghost use Rattle.emit_system_spec.specs.Heads as heads;

use base_core::{Control, Memory, Port};
use base_fixed_point::FixType;
use emit_row_facts::{Ported, inports};
use modules_profile::Local;
use std::alloc::Global;

/// The inputs of a system by port and then its controls, each with its type.
pub(crate) fn port_types(alloc: Global, local: &Local) -> Result<Vec<(Port, FixType)>, Memory>
    requires { length (inports_of local.now) ≤ 32 }
    ensures { IfOk result (λ v. v.items ≡ heads.port_types (bare_header local.now)) }
{
    let inports = inports(alloc, local)?;
    let mut ports = input_types(alloc, &inports)?;
    push_controls(local.control, local.controls.as_slice(), &mut ports)?;
    Ok(ports)
}

// The inputs alone.
fn input_types(alloc: Global, inports: &[Ported]) -> Result<Vec<(Port, FixType)>, Memory>
    requires { length inports.now ≤ 32 }
    ensures { IfOk result (λ v. v.items ≡ zip (map number_port (range_with_len 1 (length inports.now)))
        (map (λ e. e.out) inports.now)) }
{
    let mut ports = Vec::new(alloc);
    for (k, inport) in inports.iter().enumerate() {
        ports.push((Port::Number(k as u32 + 1), inport.out))?;
    }
    Ok(ports)
}

// Adds the controls.
fn push_controls(
    control: Control,
    types: &[FixType],
    ports: &mut Vec<(Port, FixType)>,
) -> Result<(), Memory>
    ensures { OnOk result (ports.new.items
        ≡ ports.old.items ++ zip (ports_of_control control) types.now) }
{
    match control {
        Control::Plain => Ok(()),
        Control::Enabled { .. } => push_first(Port::Enable, types, ports),
        Control::Triggered(_) => push_first(Port::Trigger, types, ports),
        Control::Both { .. } => push_both(types, ports),
    }
}

// Adds a port with the first type, if there is one.
fn push_first(port: Port, types: &[FixType], ports: &mut Vec<(Port, FixType)>) -> Result<(), Memory>
    ensures { OnOk result (ports.new.items ≡ ports.old.items ++ zip (port ∷ []) types.now) }
{
    if let Some(number) = types.first() {
        ports.push((port, *number))?;
    }
    Ok(())
}

// Adds an enable with the first type and a trigger with the second, as far as there are any.
fn push_both(types: &[FixType], ports: &mut Vec<(Port, FixType)>) -> Result<(), Memory>
    ensures { OnOk result (ports.new.items
        ≡ ports.old.items ++ zip (enable_port ∷ trigger_port ∷ []) types.now) }
{
    if let Some((enable, later)) = types.split_first() {
        ports.push((Port::Enable, *enable))?;
        push_first(Port::Trigger, later, ports)?;
    }
    Ok(())
}

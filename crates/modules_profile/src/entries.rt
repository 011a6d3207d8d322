ghost use Rattle.std.specs.Prelude.{◌≡◌, ◌++◌, ◌<◌, ◌≤◌, All, IfOk, OnOk, filter, length, map, zip};
ghost use Rattle.std.specs.List.{enumerate_from};
ghost use Rattle.modules_profile.specs.Headers.{given_by_function};
ghost use Rattle.modules_profile.specs.LawfulLocals.{IsChild};
ghost use Rattle.modules_profile.specs.NodeWires.{entries_of};
ghost use Rattle.base_core.specs.Ports.{bit_of, control_ports, has_bit as has_bit_of};

use crate::{ChildUse, Function};
use base_core::{Control, Memory, Wires};
use base_fixed_point::FixType;
use std::alloc::Global;

// The bits of the controls in a mask of inputs.
const ENABLE: u32 = 32;

const TRIGGER: u32 = 33;

/// The inputs of a child, each by its bit and the wire that enters it.
pub(crate) fn entries(alloc: Global, child: &ChildUse) -> Result<Vec<(u32, u32)>, Memory>
    requires { IsChild child.now }
    ensures { IfOk result (λ v. v.items ≡ entries_of child.now) }
{
    let mut entries = Vec::new(alloc);
    push_inputs(child.wires.wires(), &mut entries)?;
    push_controls(child.header.control(), child.controls.wires(), &mut entries)?;
    Ok(entries)
}

fn push_inputs(wires: &[u32], entries: &mut Vec<(u32, u32)>) -> Result<(), Memory>
    requires { length wires.now ≤ 32 }
    ensures { OnOk result (entries.new.items ≡ entries.old.items ++ enumerate_from 0 wires.now) }
{
    for (bit, wire) in wires.iter().enumerate() {
        entries.push((bit as u32, *wire))?;
    }
    Ok(())
}

fn push_controls(
    control: Control,
    wires: &[u32],
    entries: &mut Vec<(u32, u32)>,
) -> Result<(), Memory>
    requires { length wires.now ≡ length (control_ports control) }
    ensures { OnOk result (entries.new.items
        ≡ entries.old.items ++ zip (map bit_of (control_ports control)) wires.now) }
{
    match control {
        Control::Plain => {}
        Control::Enabled { .. } => entries.push((ENABLE, wires[0]))?,
        Control::Triggered(_) => entries.push((TRIGGER, wires[0]))?,
        Control::Both { .. } => {
            entries.push((ENABLE, wires[0]))?;
            entries.push((TRIGGER, wires[1]))?;
        }
    }
    Ok(())
}

/// The wires that a function takes, where these are the inputs of its system.
pub(crate) fn taken(
    alloc: Global,
    function: &Function,
    entries: &[(u32, u32)],
) -> Result<Wires, Memory>
    requires { All (λ e. e.0 < 64) entries.now }
    ensures { IfOk result (λ v. v
        ≡ map (λ e. e.1) (filter (λ e. has_bit_of function.now.inputs e.0) entries.now)) }
{
    let mut wires = Vec::new(alloc);
    for (bit, wire) in entries {
        if has_bit(function.inputs, *bit) {
            wires.push(*wire)?;
        }
    }
    Ok(Wires::new(wires))
}

/// The wires that a function gives, where these are the outputs of its system.
pub(crate) fn given(
    alloc: Global,
    function: &Function,
    outputs: &[(u32, FixType)],
) -> Result<Wires, Memory>
    requires { length outputs.now ≤ 32 }
    ensures { IfOk result (λ v. v ≡ given_by_function function.now (map (λ o. o.0) outputs.now)) }
{
    let mut wires = Vec::new(alloc);
    for (bit, output) in outputs.iter().enumerate() {
        if has_bit(u64::from(function.outputs), bit as u32) {
            wires.push(output.0)?;
        }
    }
    Ok(Wires::new(wires))
}

fn has_bit(mask: u64, bit: u32) -> bool
    requires { bit < 64 }
    ensures { result ≡ has_bit_of mask bit }
{
    mask & (1 << bit) != 0
}

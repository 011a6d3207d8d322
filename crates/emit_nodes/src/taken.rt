ghost use Rattle.std.specs.Prelude.{◌≡◌, ◌<◌, ◌++◌, All, IfOk, OnOk, length, map};
ghost use Rattle.std.specs.List.{range_with_len};
ghost use Rattle.base_core.specs.declared.base.Port.TheVariants.{Number as number_port};
ghost use Rattle.modules_profile.specs.Headers as headers;
ghost use Rattle.modules_profile.specs.Locals.{entering as wires_entering};
ghost use Rattle.base_core.specs.Ports as mask;

use base_core::{Control, Memory, Port};
use c_syntax::Leaf;
use modules_profile::{ChildUse, Function, Header};
use std::alloc::Global;

/// A function that takes and gives nothing.
const IDLE: Function = Function {
    inputs: 0,
    outputs: 0,
};

/// The rows that a child's inputs and then its controls read.
///
/// Fails only when memory runs out.
pub(crate) fn entering(alloc: Global, child: &ChildUse) -> Result<Vec<u32>, Memory>
    ensures { IfOk result (λ v. v.items ≡ wires_entering child.now) }
{
    let mut wires = Vec::new(alloc);
    wires.extend_from_slice(child.wires.wires())?;
    wires.extend_from_slice(child.controls.wires())?;
    Ok(wires)
}

/// Of what a system has for each input and then for its controls, what function `j` of it takes,
/// which counts from 1.
///
/// Fails only when memory runs out.
pub(crate) fn taken(
    alloc: Global,
    header: &Header,
    j: u8,
    leaves: &[Leaf],
) -> Result<Vec<Leaf>, Memory>
    requires { length header.now.inputs < 63 }
    ensures { IfOk result (λ v. v.items ≡ headers.taken header.now j leaves.now) }
{
    let function = numbered(header.profile.functions.as_slice(), j);
    let ports = ports_of(alloc, header)?;
    taken_by(alloc, function, &ports, leaves)
}

/// Function `j`, from 1 on.
fn numbered(functions: &[Function], j: u8) -> Function
    ensures { result ≡ headers.numbered_function functions.now j }
{
    if j == 0 {
        return IDLE;
    }
    match functions.get(usize::from(j) - 1) {
        Some(function) => *function,
        None => IDLE,
    }
}

/// The inputs of a system by number, and then its controls.
fn ports_of(alloc: Global, header: &Header) -> Result<Vec<Port>, Memory>
    requires { length header.now.inputs < 63 }
    ensures ports { IfOk result (λ v. v.items ≡ headers.ports_of_header header.now) }
    ensures bits { IfOk result (λ v. All (λ p. mask.bit_of p < 64) v.items) }
{
    let mut ports = Vec::new(alloc);
    for k in 0..header.inputs.len() {
        ports.push(Port::Number(k as u32 + 1))?;
    }
    push_controls(header.control, &mut ports)?;
    Ok(ports)
}

/// Adds the controls.
fn push_controls(control: Control, ports: &mut Vec<Port>) -> Result<(), Memory>
    ensures { OnOk result (ports.new.items ≡ ports.old.items ++ mask.control_ports control) }
{
    match control {
        Control::Plain => {}
        Control::Enabled { .. } => ports.push(Port::Enable)?,
        Control::Triggered(_) => ports.push(Port::Trigger)?,
        Control::Both { .. } => {
            ports.push(Port::Enable)?;
            ports.push(Port::Trigger)?;
        }
    }
    Ok(())
}

/// Of what a system has for each of its inputs, what a function takes.
fn taken_by(
    alloc: Global,
    function: Function,
    inputs: &[Port],
    leaves: &[Leaf],
) -> Result<Vec<Leaf>, Memory>
    requires { All (λ p. mask.bit_of p < 64) inputs.now }
    ensures { IfOk result
        (λ v. v.items ≡ headers.taken_by_function function inputs.now leaves.now) }
{
    let mut taken = Vec::new(alloc);
    for (k, port) in inputs.iter().enumerate() {
        let Some(leaf) = leaves.get(k) else {
            return Ok(taken);
        };
        if has_bit(function.inputs, port.bit()) {
            taken.push(*leaf)?;
        }
    }
    Ok(taken)
}

/// Whether a set has a bit.
fn has_bit(set: u64, bit: u32) -> bool
    requires { bit < 64 }
    ensures { result ≡ mask.has_bit set bit }
{
    set & (1 << bit) != 0
}

// The plans of a driver's calls, made before the first.
ghost use Rattle.std.specs.Prelude.{◌≡◌, ◌≤◌, ◌<◌, ◌^◌, ℕ, suc, Some, IfOk, OnOk, length, slice_get, ◌++◌};
ghost use Rattle.base_core.specs.Ports.{has_bit as has_bit_of};
ghost use Rattle.c_syntax.specs.Plain.{program_tree};
ghost use Rattle.emit_shape.specs.Programs.{procedure_place};
ghost use Rattle.tool_driver.specs.Drivable.{IsShape};
ghost use Rattle.tool_driver.specs.Shapes as shapes;
ghost use Rattle.emit_shape.specs.Names.{function_name, named_update};

use crate::inputs::Input;
use crate::shape::DriveShape;
use base_core::{Memory, Port, Text};
use base_fixed_point::FixType;
use c_checked::Checked;
use modules_profile::Function;
use std::alloc::Global;
use std::marker::Model;

/// What a call needs: the position of its procedure, its inputs, and the names of the outputs that it gives.
#[derive(Drop)]
pub(crate) struct Plan {
    pub(crate) procedure: u32,
    pub(crate) inputs: Vec<Input>,
    pub(crate) outputs: Vec<Text>,
}

impl Model for Plan {
    ghost use Rattle.tool_driver.specs.Shapes.{CallPlan};

    ghost Value = { CallPlan };

    ghost view = { λ p. record {
      procedure = p.procedure;
      inputs = p.inputs.items;
      outputs = p.outputs.items;
    } };
}

// Whether a bit is in a mask.
#[tactic(auto, using(crate::proofs::LoopSteps::high_bit))]
fn has_bit(mask: u64, bit: u32) -> bool
    ensures { result ≡ has_bit_of mask bit }
{
    if bit < 64 {
        mask & (1 << bit) != 0
    } else {
        false
    }
}

// The input at a place.
fn numbered_input(place: usize, of: FixType) -> Input
    requires { place < 2 ^ 31 }
    ensures { result ≡ shapes.numbered_input (place, of) }
{
    Input {
        place: place as u32,
        port: Port::Number(place as u32 + 1),
        of,
    }
}

// The inputs with these types, by number.
#[tactic(auto, using(crate::proofs::LoopSteps::mapped_more))]
fn numbered_inputs(alloc: Global, types: &[FixType]) -> Result<Vec<Input>, Memory>
    requires { length types.now ≤ 32 }
    ensures { IfOk result (λ v. v.items ≡ shapes.numbered_inputs types.now) }
{
    let mut inputs = Vec::new(alloc);
    for (place, of) in types.iter().enumerate() {
        inputs.push(numbered_input(place, *of))?;
    }
    Ok(inputs)
}

// Adds the controls, whose places begin after so many inputs.
fn push_controls(
    controls: &[(Port, FixType)],
    from: usize,
    inputs: &mut Vec<Input>,
) -> Result<(), Memory>
    requires few { length controls.now ≤ 2 }
    requires behind { from ≤ 32 }
    ensures { OnOk result (inputs.new.items
        ≡ inputs.old.items ++ shapes.control_inputs from controls.now) }
{
    for (k, control) in controls.iter().enumerate() {
        inputs.push(Input {
            place: (from + k) as u32,
            port: control.0,
            of: control.1,
        })?;
    }
    Ok(())
}

/// All inputs of a system that is driven. Fails where memory runs out.
pub(crate) fn inputs_of(alloc: Global, shape: &DriveShape) -> Result<Vec<Input>, Memory>
    requires { IsShape shape.now }
    ensures { IfOk result (λ v. v.items ≡ shapes.inputs_of shape.now) }
{
    let mut inputs = numbered_inputs(alloc, &shape.inputs)?;
    push_controls(&shape.controls, shape.inputs.len(), &mut inputs)?;
    Ok(inputs)
}

// Those of the inputs that a function takes.
fn inputs_taken(alloc: Global, function: &Function, inputs: &[Input]) -> Result<Vec<Input>, Memory>
    ensures { IfOk result (λ v. v.items ≡ shapes.inputs_taken function.now inputs.now) }
{
    let mut taken = Vec::new(alloc);
    for input in inputs {
        if has_bit(function.inputs, input.port.bit()) {
            taken.push(*input)?;
        }
    }
    Ok(taken)
}

// Of the names of the outputs, those that a function gives.
#[tactic(auto, using(crate::proofs::LoopSteps::kept_more))]
fn outputs_given(alloc: Global, function: &Function, names: &[Text]) -> Result<Vec<Text>, Memory>
    requires { length names.now ≤ 32 }
    ensures { IfOk result (λ v. v.items ≡ shapes.outputs_given function.now names.now) }
{
    let mut given = Vec::new(alloc);
    for (bit, name) in names.iter().enumerate() {
        if has_bit(u64::from(function.outputs), bit as u32) {
            given.push(Text::copy_of(alloc, name.bytes())?)?;
        }
    }
    Ok(given)
}

// The position of the procedure of a name, which is there.
fn position(program: &Checked, name: &[u8]) -> u32
    ensures { result ≡ procedure_place (program_tree program.now.program) name.now }
{
    program.procedure(name).unwrap_or(0)
}

// The position of the procedure of function j of the system of a name. Fails where memory runs out.
fn function_position(alloc: Global, program: &Checked, name: &[u8], j: u32) -> Result<u32, Memory>
    ensures { IfOk result (λ k. k
        ≡ procedure_place (program_tree program.now.program) (function_name name.now j)) }
{
    let mut text = Vec::new(alloc);
    text.extend_from_slice(name)?;
    text.extend_from_slice(b"_out")?;
    let number = format!(in alloc; "{j}")?;
    text.extend_from_slice(number.as_bytes())?;
    Ok(position(program, &text))
}

// The position of the procedure of the update. Fails where memory runs out.
fn update_position(alloc: Global, program: &Checked, name: &[u8]) -> Result<u32, Memory>
    ensures { IfOk result (λ k. k
        ≡ procedure_place (program_tree program.now.program) (named_update name.now)) }
{
    let mut text = Vec::new(alloc);
    text.extend_from_slice(name)?;
    text.extend_from_slice(b"_update")?;
    Ok(position(program, &text))
}

// The plan of the calls of the function at a place.
fn function_plan(
    alloc: Global,
    program: &Checked,
    shape: &DriveShape,
    inputs: &[Input],
    at: usize,
) -> Result<Plan, Memory>
    requires shape { IsShape shape.now }
    requires inputs { inputs.now ≡ shapes.inputs_of shape.now }
    requires there { at < length shape.now.functions }
    ensures { IfOk result (λ plan. plan
        ≡ shapes.function_plan (program_tree program.now.program) shape.now (suc at)) }
{
    let function = shape.profile.functions[at];
    Ok(Plan {
        procedure: function_position(alloc, program, shape.name.bytes(), at as u32 + 1)?,
        inputs: inputs_taken(alloc, &function, inputs)?,
        outputs: outputs_given(alloc, &function, &shape.outputs)?,
    })
}

/// The plans of the calls of all functions. Fails where memory runs out.
#[tactic(auto, using(crate::proofs::LoopSteps::each_more))]
pub(crate) fn function_plans(
    alloc: Global,
    program: &Checked,
    shape: &DriveShape,
    inputs: &[Input],
) -> Result<Vec<Plan>, Memory>
    requires shape { IsShape shape.now }
    requires inputs { inputs.now ≡ shapes.inputs_of shape.now }
    ensures each { IfOk result (λ v. length v.items ≡ length shape.now.functions) }
    ensures plans { IfOk result (λ v. (k : ℕ) → k < length v.items → slice_get v.items k
        ≡ Some (shapes.function_plan (program_tree program.now.program) shape.now (suc k))) }
{
    let mut plans = Vec::new(alloc);
    for at in 0..shape.profile.functions.len() {
        plans.push(function_plan(alloc, program, shape, inputs, at)?)?;
    }
    Ok(plans)
}

/// The plan of the update. Fails where memory runs out.
pub(crate) fn update_plan(
    alloc: Global,
    program: &Checked,
    shape: &DriveShape,
    inputs: Vec<Input>,
) -> Result<Plan, Memory>
    requires { inputs.items ≡ shapes.inputs_of shape.now }
    ensures { IfOk result (λ plan. plan
        ≡ shapes.update_plan (program_tree program.now.program) shape.now) }
{
    Ok(Plan {
        procedure: update_position(alloc, program, shape.name.bytes())?,
        inputs,
        outputs: Vec::new(alloc),
    })
}

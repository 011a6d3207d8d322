ghost use Rattle.std.specs.Prelude.{◌≡◌, ◌++◌, IfOk, decimal};
ghost use Rattle.modules_profile.specs.Systems as systems;
ghost use Rattle.c_syntax.specs.Outputs as outputs;
ghost use Rattle.emit_shape.specs.Names as names;

use base_core::{Memory, Text};
use std::alloc::Global;

/// A name as it is.
pub fn named(alloc: Global, name: &str) -> Result<Text, Memory>
    ensures { IfOk result (λ t. t ≡ name.now) }
{
    Text::copy_of(alloc, name.as_bytes())
}

/// The name of a system: `top`, or `s` and its subsystem row.
pub fn system_name(alloc: Global, s: Option<u32>) -> Result<Text, Memory>
    ensures { IfOk result (λ t. t ≡ systems.system_name s) }
{
    match s {
        None => named(alloc, "top"),
        Some(row) => Text::numbered(alloc, "s", u64::from(row)),
    }
}

/// One text after another.
pub fn joined(alloc: Global, front: &[u8], back: &[u8]) -> Result<Text, Memory>
    ensures { IfOk result (λ t. t ≡ front.now ++ back.now) }
{
    let mut text = Vec::from_slice(alloc, front)?;
    text.extend_from_slice(back)?;
    Ok(Text::new(text))
}

// The name of a system with an end.
fn with_end(alloc: Global, s: Option<u32>, end: &str) -> Result<Text, Memory>
    ensures { IfOk result (λ t. t ≡ systems.system_name s ++ end.now) }
{
    let system = system_name(alloc, s)?;
    joined(alloc, system.bytes(), end.as_bytes())
}

// The name of a system with an end and a number after it.
fn with_number(alloc: Global, s: Option<u32>, end: &str, number: u64) -> Result<Text, Memory>
    ensures { IfOk result (λ t. t ≡ systems.system_name s ++ end.now ++ decimal number) }
{
    let front = with_end(alloc, s, end)?;
    let digits = format!(in alloc; "{number}")?;
    joined(alloc, front.bytes(), digits.as_bytes())
}

/// The name of function `j` of a system, from 1 on.
pub fn out_name(alloc: Global, s: Option<u32>, j: u32) -> Result<Text, Memory>
    ensures { IfOk result (λ t. t ≡ names.out_name s j) }
{
    with_number(alloc, s, "_out", u64::from(j))
}

/// The name of a system's update.
pub fn update_name(alloc: Global, s: Option<u32>) -> Result<Text, Memory>
    ensures { IfOk result (λ t. t ≡ names.update_name s) }
{
    with_end(alloc, s, "_update")
}

/// The name of a system's start.
pub fn start_name(alloc: Global, s: Option<u32>) -> Result<Text, Memory>
    ensures { IfOk result (λ t. t ≡ names.start_name s) }
{
    with_end(alloc, s, "_start")
}

/// The name of a system's reset.
pub fn reset_name(alloc: Global, s: Option<u32>) -> Result<Text, Memory>
    ensures { IfOk result (λ t. t ≡ names.reset_name s) }
{
    with_end(alloc, s, "_reset")
}

/// The name of the procedure of the group with a number, which counts from 1 in names.
pub fn group_name(alloc: Global, s: Option<u32>, number: u64) -> Result<Text, Memory>
    ensures { IfOk result (λ t. t ≡ names.group_name s number) }
{
    with_number(alloc, s, "_g", number)
}

/// The name of the field of the value of a row.
pub fn value_name(alloc: Global, row: u32) -> Result<Text, Memory>
    ensures { IfOk result (λ t. t ≡ names.value_name row) }
{
    Text::numbered(alloc, "v", u64::from(row))
}

/// The name of the field of what a row remembers.
pub fn memory_name(alloc: Global, row: u32) -> Result<Text, Memory>
    ensures { IfOk result (λ t. t ≡ names.memory_name row) }
{
    Text::numbered(alloc, "m", u64::from(row))
}

/// The name of the field of the place of a ring's oldest item.
pub fn place_name(alloc: Global, row: u32) -> Result<Text, Memory>
    ensures { IfOk result (λ t. t ≡ names.place_name row) }
{
    Text::numbered(alloc, "p", u64::from(row))
}

/// The name of the field of how many samples a ring took.
pub fn taken_name(alloc: Global, row: u32) -> Result<Text, Memory>
    ensures { IfOk result (λ t. t ≡ names.taken_name row) }
{
    Text::numbered(alloc, "n", u64::from(row))
}

/// The name of the field of the counter of the group with a number, from 1.
pub fn counter_name(alloc: Global, number: u64) -> Result<Text, Memory>
    ensures { IfOk result (λ t. t ≡ names.counter_name number) }
{
    Text::numbered(alloc, "k", number)
}

/// The name of the parameter of the input of a port.
pub fn input_name(alloc: Global, port: u32) -> Result<Text, Memory>
    ensures { IfOk result (λ t. t ≡ names.input_name port) }
{
    Text::numbered(alloc, "u", u64::from(port))
}

/// The name of the field of the output of a port.
pub fn output_name(alloc: Global, port: u32) -> Result<Text, Memory>
    ensures { IfOk result (λ t. t ≡ outputs.output_name port) }
{
    Text::numbered(alloc, "y", u64::from(port))
}

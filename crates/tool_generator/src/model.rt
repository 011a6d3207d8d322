ghost use Rattle.std.specs.Prelude.{◌≡◌, ◌++◌, ◌<◌, ◌≤◌, IfOk, OnOk, flat_map};
ghost use Rattle.std.specs.List.{range_with_len};
ghost use Rattle.std.specs.String.{string_bytes};
ghost use Rattle.tool_generator.specs.Models.{drawn_group, entering_lines, group_name, last_lines, model_head, model_text};
ghost use Rattle.tool_generator.specs.Texts.{input_text};

use crate::blocks::{push_line, push_numbered};
use crate::draws::{Drawn, Draws};
use crate::groups::{push_ends, push_group};
use base_core::Memory;
use std::alloc::Global;

/// The text of a model of `size` subsystems in a chain, whose numbers are drawn from `start` on.
///
/// The only error is that memory runs out.
pub fn generate(alloc: Global, start: u32, size: u32) -> Result<Vec<u8>, Memory>
    requires start_positive { 0 < start }
    requires start_bound { start ≤ 2147483646 }
    requires size_positive { 0 < size }
    requires size_bound { size ≤ 2499 }
    ensures { IfOk result (λ text. text.items ≡ model_text start size) }
{
    let mut out = String::new(alloc);
    push_head(&mut out)?;
    push_groups(&mut out, start, size)?;
    push_numbered(&mut out, "Outport", "Out1", "Port", 1)?;
    push_numbered(&mut out, "Outport", "Out2", "Port", 2)?;
    push_all_lines(alloc, &mut out, size)?;
    push_last_lines(alloc, &mut out, size)?;
    push_ends(&mut out)?;
    Ok(out.into_bytes())
}

// Appends the beginning of the model and its only input.
#[tactic(auto, unfolding(crate::specs::Models::model_head, crate::specs::Texts::input_text))]
fn push_head(out: &mut String) -> Result<(), Memory>
    ensures { OnOk result (string_bytes out.new
        ≡ string_bytes out.old ++ model_head ++ input_text) }
{
    out.push_str("Model {\nName \"gen\"\nSystem {\n")?;
    out.push_str(
        "Block {\nBlockType Inport\nName \"In1\"\nPort \"1\"\nOutDataTypeStr \"int32\"\n}\n",
    )?;
    Ok(())
}

// Appends the subsystems, each with what the next three draws give.
fn push_groups(out: &mut String, start: u32, size: u32) -> Result<(), Memory>
    requires { size ≤ 2499 }
    ensures { OnOk result (string_bytes out.new
        ≡ string_bytes out.old ++ flat_map (drawn_group start) (range_with_len 1 size)) }
{
    let mut draws = Draws { state: start };
    for k in 1..size + 1 {
        let drawn = Drawn::next(&mut draws);
        push_group(out, k, &drawn)?;
    }
    Ok(())
}

// Appends the lines that enter the subsystems.
fn push_all_lines(alloc: Global, out: &mut String, size: u32) -> Result<(), Memory>
    requires { size ≤ 2499 }
    ensures { OnOk result (string_bytes out.new
        ≡ string_bytes out.old ++ flat_map entering_lines (range_with_len 1 size)) }
{
    for k in 1..size + 1 {
        push_entering_lines(alloc, out, k)?;
    }
    Ok(())
}

// Appends the lines that enter subsystem `k`.
#[tactic(auto, unfolding(crate::specs::Models::entering_lines))]
fn push_entering_lines(alloc: Global, out: &mut String, k: u32) -> Result<(), Memory>
    requires { 0 < k }
    ensures { OnOk result (string_bytes out.new ≡ string_bytes out.old ++ entering_lines k) }
{
    let name = name_of(alloc, k)?;
    if k == 1 {
        push_line(out, "In1", 1, name.as_str(), 1)?;
    } else {
        let before = name_of(alloc, k - 1)?;
        push_line(out, before.as_str(), 2, name.as_str(), 1)?;
    }
    push_line(out, name.as_str(), 1, name.as_str(), 2)
}

// Appends the lines that enter the outputs.
fn push_last_lines(alloc: Global, out: &mut String, size: u32) -> Result<(), Memory>
    ensures { OnOk result (string_bytes out.new
        ≡ string_bytes out.old ++ last_lines size) }
{
    let name = name_of(alloc, size)?;
    push_line(out, name.as_str(), 2, "Out1", 1)?;
    push_line(out, name.as_str(), 1, "Out2", 1)
}

// The name of subsystem `k`.
fn name_of(alloc: Global, k: u32) -> Result<String, Memory>
    ensures { IfOk result (λ name. string_bytes name ≡ group_name k) }
{
    let name = format!(in alloc; "G{k}")?;
    Ok(name)
}

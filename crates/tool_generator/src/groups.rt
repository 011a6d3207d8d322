ghost use Rattle.std.specs.Prelude.{◌≡◌, ◌++◌, OnOk};
ghost use Rattle.std.specs.String.{string_bytes};
ghost use Rattle.tool_generator.specs.Models.{group_blocks, group_head, group_lines, group_text};
ghost use Rattle.tool_generator.specs.Texts.{ends_text};

use crate::blocks::{push_block, push_line, push_numbered};
use crate::draws::Drawn;
use base_core::Memory;
use std::fmt::Write;

/// Appends subsystem `k` with its blocks and lines.
#[tactic(auto, unfolding(crate::specs::Models::group_text))]
pub(crate) fn push_group(out: &mut String, k: u32, drawn: &Drawn) -> Result<(), Memory>
    ensures { OnOk result (string_bytes out.new
        ≡ string_bytes out.old
        ++ group_text k drawn.now.gain drawn.now.signs.now drawn.now.initial) }
{
    push_group_head(out, k)?;
    push_group_blocks(out, drawn)?;
    push_group_lines(out)?;
    push_ends(out)
}

#[tactic(auto, unfolding(crate::specs::Models::group_head))]
fn push_group_head(out: &mut String, k: u32) -> Result<(), Memory>
    ensures { OnOk result (string_bytes out.new ≡ string_bytes out.old ++ group_head k) }
{
    write!(
        out,
        "Block {{\nBlockType SubSystem\nName \"G{k}\"\nSystem {{\n"
    )?;
    Ok(())
}

#[tactic(auto, unfolding(crate::specs::Models::group_blocks))]
fn push_group_blocks(out: &mut String, drawn: &Drawn) -> Result<(), Memory>
    ensures { OnOk result (string_bytes out.new
        ≡ string_bytes out.old
        ++ group_blocks drawn.now.gain drawn.now.signs.now drawn.now.initial) }
{
    push_numbered(out, "Inport", "a", "Port", 1)?;
    push_numbered(out, "Inport", "b", "Port", 2)?;
    push_numbered(out, "Gain", "g", "Gain", drawn.gain)?;
    push_numbered(out, "UnitDelay", "d", "InitialCondition", drawn.initial)?;
    push_block(out, "Sum", "s", "Inputs", drawn.signs)?;
    push_numbered(out, "Outport", "p", "Port", 1)?;
    push_numbered(out, "Outport", "q", "Port", 2)
}

#[tactic(auto, unfolding(crate::specs::Models::group_lines))]
fn push_group_lines(out: &mut String) -> Result<(), Memory>
    ensures { OnOk result (string_bytes out.new ≡ string_bytes out.old ++ group_lines) }
{
    push_line(out, "a", 1, "g", 1)?;
    push_line(out, "g", 1, "p", 1)?;
    push_line(out, "b", 1, "s", 1)?;
    push_line(out, "d", 1, "s", 2)?;
    push_line(out, "s", 1, "d", 1)?;
    push_line(out, "s", 1, "q", 1)
}

/// Appends the ends of a system and of what it is in.
#[tactic(auto, unfolding(crate::specs::Texts::ends_text))]
pub(crate) fn push_ends(out: &mut String) -> Result<(), Memory>
    ensures { OnOk result (string_bytes out.new ≡ string_bytes out.old ++ ends_text) }
{
    out.push_str("}\n}\n")?;
    Ok(())
}

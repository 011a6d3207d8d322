ghost use Rattle.std.specs.Prelude.{◌≡◌, ◌++◌, OnOk, codes, decimal};
ghost use Rattle.std.specs.String.{string_bytes};
ghost use Rattle.tool_generator.specs.Texts.{block_text, line_text, source_text, target_text};

use base_core::Memory;
use std::fmt::Write;

/// Appends a block of this type and name with one further parameter.
#[tactic(auto, unfolding(crate::specs::Texts::block_text))]
pub(crate) fn push_block(
    out: &mut String,
    kind: &str,
    name: &str,
    param: &str,
    value: &str,
) -> Result<(), Memory>
    ensures { OnOk result (string_bytes out.new
        ≡ string_bytes out.old ++ block_text kind.now name.now param.now value.now) }
{
    write!(
        out,
        "Block {{\nBlockType {kind}\nName \"{name}\"\n{param} \"{value}\"\n}}\n"
    )?;
    Ok(())
}

/// Appends the same where the value is a number.
#[tactic(auto, unfolding(crate::specs::Texts::block_text))]
pub(crate) fn push_numbered(
    out: &mut String,
    kind: &str,
    name: &str,
    param: &str,
    value: u32,
) -> Result<(), Memory>
    ensures { OnOk result (string_bytes out.new
        ≡ string_bytes out.old ++ block_text kind.now name.now param.now (decimal value)) }
{
    write!(
        out,
        "Block {{\nBlockType {kind}\nName \"{name}\"\n{param} \"{value}\"\n}}\n"
    )?;
    Ok(())
}

/// Appends a line from a port of one block to a port of another.
#[tactic(auto, unfolding(crate::specs::Texts::line_text))]
pub(crate) fn push_line(
    out: &mut String,
    from: &str,
    from_port: u32,
    to: &str,
    to_port: u32,
) -> Result<(), Memory>
    ensures { OnOk result (string_bytes out.new
        ≡ string_bytes out.old ++ line_text from.now from_port to.now to_port) }
{
    push_source(out, from, from_port)?;
    push_target(out, to, to_port)
}

#[tactic(auto, unfolding(crate::specs::Texts::source_text))]
fn push_source(out: &mut String, from: &str, port: u32) -> Result<(), Memory>
    ensures { OnOk result (string_bytes out.new
        ≡ string_bytes out.old ++ source_text from.now port) }
{
    write!(out, "Line {{\nSrcBlock \"{from}\"\nSrcPort {port}\n")?;
    Ok(())
}

#[tactic(auto, unfolding(crate::specs::Texts::target_text))]
fn push_target(out: &mut String, to: &str, port: u32) -> Result<(), Memory>
    ensures { OnOk result (string_bytes out.new ≡ string_bytes out.old ++ target_text to.now port) }
{
    write!(out, "DstBlock \"{to}\"\nDstPort {port}\n}}\n")?;
    Ok(())
}

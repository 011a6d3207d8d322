use crate::words::{push_end, push_lines, push_words};
use std::alloc::AllocError;

// Writes a block, as `Inport a Port=2`: four lines, and one more for each further word.
fn push_block(text: &mut String, words: &str) -> Result<(), AllocError> {
    text.push_str("Block {\n")?;
    push_words(text, words)?;
    text.push_str("}\n")
}

// Writes what is before the blocks of a subsystem, as `SubSystem s`: four lines.
fn push_opening(text: &mut String, words: &str) -> Result<(), AllocError> {
    text.push_str("Block {\n")?;
    push_words(text, words)?;
    text.push_str("System {\n")
}

// Writes a line from a place to another, in six lines where both ports are written.
fn push_wire(text: &mut String, source: &str, target: &str) -> Result<(), AllocError> {
    text.push_str("Line {\n")?;
    push_end(text, "Src", source)?;
    push_end(text, "Dst", target)?;
    text.push_str("}\n")
}

// Writes a block, the beginning of a subsystem, or a line.
fn push_section(text: &mut String, part: &str) -> Result<(), AllocError> {
    if let Some(words) = part.strip_suffix(" {") {
        return push_opening(text, words);
    }
    match part.split_once(" > ") {
        Some((source, target)) => push_wire(text, source, target),
        None => push_block(text, part),
    }
}

fn push_part(text: &mut String, part: &str) -> Result<(), AllocError> {
    match part {
        "" => Ok(()),
        "}" => text.push_str("}\n}\n"),
        _ if part.contains(" / ") => push_lines(text, part),
        _ => push_section(text, part),
    }
}

/// Writes the parts of a system, which are parted by `; `:
///
/// - a block, as `Gain g Gain=2`: its type, its name and parameters (four lines, and one for each parameter);
/// - a line, as `a 1 > g 1`: a block and its port, then another's (six lines);
/// - a subsystem, as `SubSystem s {` (four lines), its parts, and `}` (two lines);
/// - lines of text, which are parted by ` / `;
/// - nothing.
pub fn push_parts(text: &mut String, parts: &str) -> Result<(), AllocError> {
    for part in parts.split("; ") {
        push_part(text, part)?;
    }
    Ok(())
}

use crate::parts::push_parts;
use crate::words::push_lines;
use std::alloc::{AllocError, Global};

/// The text of a System of these parts, from line 2 on.
pub fn system_of(alloc: Global, parts: &str) -> Result<String, AllocError> {
    let mut text = String::new(alloc);
    text.push_str("System {\n")?;
    push_parts(&mut text, parts)?;
    text.push_str("}\n")?;
    Ok(text)
}

/// The text of a model of these parts, from line 3 on.
pub fn model_of(alloc: Global, parts: &str) -> Result<String, AllocError> {
    let system = system_of(alloc, parts)?;
    format!(in alloc; "Model {{\n{system}}}\n")
}

/// The same with further lines after its System, which are parted by ` / `.
pub fn model_with(alloc: Global, parts: &str, settings: &str) -> Result<String, AllocError> {
    let mut text = String::new(alloc);
    text.push_str("Model {\n")?;
    text.push_str(&system_of(alloc, parts)?)?;
    push_lines(&mut text, settings)?;
    text.push_str("}\n")?;
    Ok(text)
}

mod blocks;
mod files;
mod numbers;
mod systems;

use base_refusals::refusal_text;
use diagram_meaning::BuildFault;
use mdl_params::Defaults;
use mdl_reader::read_mdl;
use mdl_systems::{find_model, read_model};
use std::alloc::Global;
use std::test::Fail;
use test_models::model_of;

/// The text of a refusal, or that memory ran out.
fn told(alloc: Global, fault: &BuildFault) -> Result<Vec<u8>, Fail> {
    match fault {
        BuildFault::Refused(refusal) => Ok(refusal_text(alloc, refusal)?),
        BuildFault::Memory => Err(Fail::from("memory")),
    }
}

/// What reading a model's text answers: `read`, or the text of the refusal.
fn answer(alloc: Global, text: &str) -> Result<Vec<u8>, Fail> {
    let file = read_mdl(alloc, text.as_bytes())?;
    let sections = match find_model(alloc, &file) {
        Ok(sections) => sections,
        Err(fault) => return told(alloc, &fault),
    };
    let defaults = Defaults::new(alloc, sections.model)?;
    match read_model(alloc, &defaults, sections.system) {
        Ok(_) => Ok(b"read\n".to_vec(alloc)?),
        Err(fault) => told(alloc, &fault),
    }
}

/// Fails where reading a file answers anything else than what is expected.
fn is_told_of_file(alloc: Global, text: &str, expected: &str) -> Result<(), Fail> {
    let told = answer(alloc, text)?;
    if told.as_slice() == expected.as_bytes() {
        return Ok(());
    }
    let told = str::from_utf8(told.as_slice())?;
    Err(Fail::new(format_args!("{told:?} is told, not {expected:?}, of {text}")))
}

/// A part without how often it occurs, and that, as in `32 * Ground g`.
fn counted(part: &str) -> Result<(usize, &str), Fail> {
    match part.split_once(" * ") {
        Some((count, part)) => Ok((count.parse::<usize>()?, part)),
        None => Ok((1, part)),
    }
}

/// Parts of which some occur several times, each written out.
fn written_out(alloc: Global, parts: &str) -> Result<String, Fail> {
    let mut text = String::new(alloc);
    for part in parts.split("; ") {
        let (count, part) = counted(part)?;
        for _ in 0..count {
            text.push_str(part)?;
            text.push_str("; ")?;
        }
    }
    Ok(text)
}

/// The text of a model of these parts, of which some may occur several times.
fn model_text(alloc: Global, parts: &str) -> Result<String, Fail> {
    Ok(model_of(alloc, &written_out(alloc, parts)?)?)
}

/// Fails where reading a model of one of these lists of parts answers anything else than what is expected of it.
fn are_told(alloc: Global, cases: &[(&str, &str)]) -> Result<(), Fail> {
    for &(parts, expected) in cases {
        is_told_of_file(alloc, &model_text(alloc, parts)?, expected)?;
    }
    Ok(())
}

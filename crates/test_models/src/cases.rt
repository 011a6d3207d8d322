// What is reported of models by their texts, compared with what is expected, case by case.
//
// A function `tell` gives what is reported of the text of a model, as the text of its refusal; it fails when memory runs out.

use crate::models::model_of;
use std::alloc::{AllocError, Global};
use std::test::Fail;

/// Fails where what is reported of some text isn't what is expected.
pub fn is_told(told: &[u8], expected: &str, text: &str) -> Result<(), Fail> {
    if told == expected.as_bytes() {
        return Ok(());
    }
    let told = str::from_utf8(told)?;
    Err(Fail::new(format_args!("{told:?} is told, not {expected:?}, of {text}")))
}

/// Fails where what is reported of a model of these parts isn't what is expected.
pub fn is_told_in_root<F: Fn(Global, &str) -> Result<Vec<u8>, Fail>>(
    alloc: Global,
    tell: &F,
    parts: &str,
    expected: &str,
) -> Result<(), Fail>
    requires { F.IsAlwaysCallable tell.now }
{
    let model = model_of(alloc, parts)?;
    let told = tell(alloc, model.as_str())?;
    is_told(told.as_slice(), expected, parts)
}

/// The same of a model that has the parts in a subsystem, which begins four lines before them.
pub fn is_told_inside<F: Fn(Global, &str) -> Result<Vec<u8>, Fail>>(
    alloc: Global,
    tell: &F,
    parts: &str,
    expected: &str,
) -> Result<(), Fail>
    requires { F.IsAlwaysCallable tell.now }
{
    let subsystem = format!(in alloc; "SubSystem inner {{; {parts}; }}")?;
    is_told_in_root(alloc, tell, subsystem.as_str(), expected)
}

/// A frame with words, which are parted by ` | `, in place of its `_`, one after the other.
pub fn filled(alloc: Global, frame: &str, words: &str) -> Result<String, AllocError> {
    let mut text = String::new(alloc);
    text.push_str(frame)?;
    for word in words.split(" | ") {
        text = text.replacen(alloc, "_", word, 1)?;
    }
    Ok(text)
}

/// Fails where what is reported of one of some models isn't what is expected: each case has the words that a frame of parts
/// is filled with, and what is expected of a model of these parts.
pub fn in_root<F: Fn(Global, &str) -> Result<Vec<u8>, Fail>>(
    alloc: Global,
    tell: &F,
    frame: &str,
    cases: &[(&str, &str)],
) -> Result<(), Fail>
    requires { F.IsAlwaysCallable tell.now }
{
    for &(words, expected) in cases {
        let parts = filled(alloc, frame, words)?;
        is_told_in_root(alloc, tell, parts.as_str(), expected)?;
    }
    Ok(())
}

/// The same with what is expected of a model of these parts, and of one that has them in a subsystem.
pub fn at_both_depths<F: Fn(Global, &str) -> Result<Vec<u8>, Fail>>(
    alloc: Global,
    tell: &F,
    frame: &str,
    cases: &[(&str, &str, &str)],
) -> Result<(), Fail>
    requires { F.IsAlwaysCallable tell.now }
{
    for &(words, root, inside) in cases {
        let parts = filled(alloc, frame, words)?;
        is_told_in_root(alloc, tell, parts.as_str(), root)?;
        is_told_inside(alloc, tell, parts.as_str(), inside)?;
    }
    Ok(())
}

use base_refusals::SyntaxKind;
use base_refusals::SyntaxKind::{
    AfterString, BadName, Brace, DeepSections, OpenBracket, OpenString, StrayString,
};
use mdl_reader::{ReadFault, read_mdl};
use mdl_tree::{Item, Section};
use std::alloc::Global;
use std::test::Fail;
use test_models::{SAVED, is_told};

// The value of a section's first parameter of this name, or the empty text.
fn value<'a>(section: &'a Section, name: &[u8]) -> &'a [u8] {
    match section.param(name) {
        Some(value) => value.bytes(),
        None => b"",
    }
}

// The first section of this name in which the first parameter of that name has this value.
fn section_where<'a>(
    outer: &'a Section,
    name: &[u8],
    param: &[u8],
    wanted: &[u8],
) -> Option<&'a Section> {
    for item in outer.items.as_slice() {
        if let Item::Section(section) = item {
            if section.name.bytes() == name && value(section, param) == wanted {
                return Some(section);
            }
        }
    }
    None
}

// Sections of a model as it is saved: the model, the defaults of a gain, the gain, and the line to that.
#[derive(Clone, Copy, Drop)]
struct Saved<'a> {
    model: &'a Section,
    defaults: &'a Section,
    gain: &'a Section,
    line: &'a Section,
}

fn saved_in(file: &Section) -> Result<Saved<'_>, &'static str> {
    let model = file.section(b"Model").ok_or("Model")?;
    let all = model.section(b"BlockParameterDefaults").ok_or("defaults")?;
    let defaults = all.section(b"Block").ok_or("defaults of a gain")?;
    let system = model.section(b"System").ok_or("System")?;
    let gain = section_where(system, b"Block", b"BlockType", b"Gain").ok_or("Gain")?;
    let line = section_where(system, b"Line", b"DstBlock", b"Long gain").ok_or("Line")?;
    Ok(Saved {
        model,
        defaults,
        gain,
        line,
    })
}

// Fails where one of these sections has another value than the saved one.
fn has_saved_values(found: Saved) -> Result<(), Fail> {
    for &(section, name, expected) in &[
        (found.model, "Version", "7.8"),
        (found.defaults, "OutDataTypeStr", "fixdt(1,16,4)"),
        (found.defaults, "SaturateOnIntegerOverflow", "on"),
        (found.gain, "Name", "Long gain"),
        (found.gain, "Gain", "2.5"),
        (found.line, "Points", "[0, 0; 10, 0]"),
    ] {
        is_told(value(section, name.as_bytes()), expected, name)?;
    }
    Ok(())
}

#[test]
fn saved_model(rt: HostRuntime) -> Result<(), Fail> {
    let file = read_mdl(rt.alloc(), SAVED)?;
    let found = saved_in(&file)?;
    let lines = (file.line, found.model.line, found.gain.line);
    assert_eq!(rt; (file.name.bytes(), lines), (b"".as_slice(), (0, 2, 49)));
    has_saved_values(found)
}

// Fails where reading a text has another first error.
fn is_fault(alloc: Global, text: &str, line: u32, kind: SyntaxKind) -> Result<(), Fail> {
    if read_mdl(alloc, text.as_bytes()).err() == Some(ReadFault::Syntax { line, kind }) {
        return Ok(());
    }
    Err(Fail::new(format_args!("{kind:?} is not the fault in line {line} of {text}")))
}

#[test]
fn first_faults(rt: HostRuntime) -> Result<(), Fail> {
    for &(text, line, kind) in &[
        ("Model {\n  Name \"on", 2, OpenString),
        ("Model {\r\n1 x\r\n", 2, BadName),
        ("Model {\n}}\n", 2, BadName),
        ("a\"b\"", 1, BadName),
        ("a \"b\" \"c\"", 1, AfterString),
        ("a {\nb [1\n}\n}\n", 2, OpenBracket),
        ("a \"b\"\n\n# more\n\"c\"\nd {\n\"e\"\n}", 6, StrayString),
        ("a 1\n\"b\"", 2, StrayString),
        ("\n}\n", 2, Brace),
        ("a {\n}\nb {\n\n", 4, Brace),
    ] {
        is_fault(rt.alloc(), text, line, kind)?;
    }
    // The deepest sections that may be, and deeper ones.
    for depth in 1..130u32 {
        let text = "a {\n".repeat(rt.alloc(), depth as usize)?;
        let kind = if depth < 129 { Brace } else { DeepSections };
        is_fault(rt.alloc(), &text, depth, kind)?;
    }
    Ok(())
}

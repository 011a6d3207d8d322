use base_refusals::{Refusal, first_refusal, refusal_text};
use mdl_reader::read_mdl;
use mdl_wiring::newer_line;
use std::alloc::Global;
use std::test::Fail;
use test_models::{is_told, system_of};

/// What is reported of a refusal that may be there.
fn told(alloc: Global, found: Option<&Refusal>) -> Result<Vec<u8>, Fail> {
    match found {
        Some(refusal) => Ok(refusal_text(alloc, refusal)?),
        None => Ok(b"none\n".to_vec(alloc)?),
    }
}

/// Fails where what is reported of two refusals isn't what is expected.
fn is_first(alloc: Global, one: Refusal, other: Refusal, expected: &str) -> Result<(), Fail> {
    let first = told(alloc, first_refusal(Some(one), Some(other)).as_ref())?;
    is_told(&first, expected, "two")
}

// The one of the lesser number, and where both have one number the one at the lesser line.
#[test]
fn the_first_of_two_refusals(rt: HostRuntime) -> Result<(), Fail> {
    let (near, far) = (Refusal::NoPort { line: 5 }, Refusal::NoBlock { line: 90 });
    is_first(rt.alloc(), near, far, "refused F10 NoBlock line 90\n")?;
    let (later, sooner) = (Refusal::NoPort { line: 7 }, Refusal::NoPort { line: 6 });
    is_first(rt.alloc(), later, sooner, "refused F11 NoPort line 6\n")
}

/// What is reported of the first line in the newer form.
fn newer_in(alloc: Global, lines: &str) -> Result<Vec<u8>, Fail> {
    let text = system_of(alloc, lines)?;
    let file = read_mdl(alloc, text.as_bytes())?;
    let system = file.section(b"System").ok_or("System")?;
    told(alloc, newer_line(system).as_ref())
}

// A line, and a branch inside a branch.
#[test]
fn lines_of_the_newer_form(rt: HostRuntime) -> Result<(), Fail> {
    for &(lines, expected) in &[
        ("a 1 > b 1", "none\n"),
        (
            "a 1 > b 1; Line { / Dst b / }",
            "refused F7 Unsupported line 8\n",
        ),
        (
            "Line { / SrcBlock a / SrcPort 1 / Branch { / Branch { / Src a / } / } / }",
            "refused F7 Unsupported line 6\n",
        ),
    ] {
        is_told(&newer_in(rt.alloc(), lines)?, expected, lines)?;
    }
    Ok(())
}

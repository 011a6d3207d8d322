use base_host::{MemHost, MemSink};
use std::alloc::{AllocError, Global};
use std::test::Fail;
use test_calls::{called, compiled, models};
use tool_entry::run_tool;

const ONE_WIRE: &str = "compiled rows 2 systems 1 functions 1\n";

/// Whether `compile` ends so on a model.
fn compiles(
    alloc: Global,
    model: &[u8],
    status: u8,
    text: &str,
    files: usize,
) -> Result<bool, AllocError> {
    Ok(compiled(alloc, model)?.ended_with(status, text, files))
}

/// Whether the code of one wire begins as it has to, and how many calls run out of memory.
fn code_of_one_wire(alloc: Global) -> Result<(bool, u64), AllocError> {
    let done = compiled(alloc, models::ONE_WIRE)?;
    Ok((
        done.code.starts_with(b"#include <stdint.h>\n"),
        done.refused,
    ))
}

/// What the names of models stand for; other texts stand for themselves.
fn bytes_of(model: &'static str) -> &'static [u8] {
    match model {
        "one wire" => models::ONE_WIRE,
        "a delay" => models::ONE_DELAY,
        "a gain" => models::GAIN,
        "a branch" => models::BRANCHED,
        "defaults" => models::BY_DEFAULTS,
        "other sections" => models::SURROUNDED,
        "a scope" => models::SCOPE,
        "unclosed" => models::UNCLOSED,
        _ => model.as_bytes(),
    }
}

/// A model, the status, the text that is printed, and how many files are written.
type Row = (&'static str, u8, &'static str, usize);

const MODELS: &[Row] = &[
    ("one wire", 0, ONE_WIRE, 1),
    // With a delay in the wire, and with a Gain in the place of the Outport, so that no output has a function.
    ("a delay", 0, "compiled rows 3 systems 1 functions 1\n", 1),
    ("a gain", 0, "compiled rows 2 systems 1 functions 0\n", 1),
    // Each has the one row of an Inport wired to that of an Outport.
    ("a branch", 0, ONE_WIRE, 1),
    ("defaults", 0, ONE_WIRE, 1),
    ("other sections", 0, ONE_WIRE, 1),
    // refusals
    ("a scope", 3, "refused F7 Unsupported line 11\n", 0),
    ("unclosed", 3, "refused F2 Syntax line 22 Brace\n", 0),
    (
        "Model {\n  Name \"on",
        3,
        "refused F2 Syntax line 2 OpenString\n",
        0,
    ),
    ("", 3, "refused F3 NoModel line 0\n", 0),
    ("Model {\n}\n", 3, "refused F3 NoModel line 1\n", 0),
    (
        "Model {\nSystem {\n}\n}\nModel {\n}\n",
        3,
        "refused F4 TwoModels line 5 Second\n",
        0,
    ),
    (
        "Library {\n}\n",
        3,
        "refused F4 TwoModels line 1 Library\n",
        0,
    ),
];

#[test]
fn models_are_compiled_or_refused(rt: HostRuntime) -> Result<(), Fail> {
    for &(model, status, text, files) in MODELS {
        assert!(rt;
            compiles(rt.alloc(), bytes_of(model), status, text, files)?,
            "{text}"
        );
    }
    assert_eq!(rt; code_of_one_wire(rt.alloc())?, (true, 0));
    Ok(())
}

/// Whether the first so many bytes of one wire are refused, and nothing is written.
fn front_is_refused(alloc: Global, length: usize) -> Result<bool, AllocError> {
    let told = compiled(alloc, models::ONE_WIRE.get(..length).unwrap_or(&[]))?;
    Ok(told.status == 3 && told.files == 0)
}

// Without its last byte the one wire is the same model, and each shorter front of it is refused.
#[test]
fn fronts_of_one_wire(rt: HostRuntime) -> Result<(), Fail> {
    let (_, front) = models::ONE_WIRE.split_last().ok_or("there is no model")?;
    assert!(rt; compiles(rt.alloc(), front, 0, ONE_WIRE, 1)?);
    for length in 0..front.len() {
        assert!(rt; front_is_refused(rt.alloc(), length)?, "{length}");
    }
    Ok(())
}

/// Whether `compile` ends so on a model with so many of what this says.
fn large_compiles(
    alloc: Global,
    what: &str,
    count: u32,
    status: u8,
    text: &str,
    files: usize,
) -> Result<bool, AllocError> {
    let model = match what {
        "crossed ports" => models::crossed_ports(alloc, count)?,
        "delays" => models::backward_chain(alloc, count)?,
        "blocks" => models::grounds(alloc, count)?,
        _ => models::nested(alloc, count)?,
    };
    compiles(alloc, &model, status, text, files)
}

/// What a model has many of and how many, the status, the text that is printed, and how many files are written.
const LARGE_MODELS: &[(&str, u32, u8, &str, usize)] = &[
    (
        "crossed ports",
        32,
        0,
        "compiled rows 64 systems 1 functions 32\n",
        1,
    ),
    (
        "delays",
        50,
        0,
        "compiled rows 52 systems 1 functions 1\n",
        1,
    ),
    (
        "blocks",
        20_000,
        0,
        "compiled rows 20000 systems 1 functions 0\n",
        1,
    ),
    (
        "blocks",
        20_001,
        3,
        "refused F6 TooMany line 80003 Blocks 20001\n",
        0,
    ),
    (
        "deep sections",
        129,
        3,
        "refused F2 Syntax line 129 DeepSections\n",
        0,
    ),
];

#[test]
fn large_models(rt: HostRuntime) -> Result<(), Fail> {
    for &(what, count, status, text, files) in LARGE_MODELS {
        assert!(rt;
            large_compiles(rt.alloc(), what, count, status, text, files)?,
            "{text}"
        );
    }
    Ok(())
}

const USAGE: &str =
    "usage: mdlc compile MODEL CODE | run MODEL CODE TRACE | exec CODE TRACE | profile MODEL | drive MODEL CODE SUBSYSTEM SCRIPT | gen START SIZE MODEL CODE | lustre MODEL FILE | flow FILE TRACE\n";

/// Words that ask for nothing.
const NOTHING: &[&str] = &[
    "help",
    "--help",
    "compile a.mdl",
    "compile a.mdl a.mdl",
    "compile a.mdl -c",
    "compile a.mdl ",
    "compile a.mdl a.c d",
    "run a.mdl a.c",
    "run a.mdl a.mdl t",
    "run a.mdl t t",
    "run a.mdl a.c t u",
    "exec a.c",
    "exec a.c -t",
    "exec a.c t u",
    "drive a.mdl a.c 1",
    "drive a.mdl a.c 1 t u",
    "drive a.mdl a.mdl 1 t",
    "drive a.mdl a.c 1 a.c",
    "drive a.mdl a.c -1 t",
    "profile",
    "profile -a",
    "profile a.mdl b",
    "gen 1 1 a",
    "gen 1 1 a a",
    "gen 1 1 a b c",
    "gen 0 1 a b",
    "gen 01 1 a b",
    "gen 2147483647 1 a b",
    "gen 1 0 a b",
    "gen 1 2500 a b",
    "gen x 1 a b",
];

/// Whether a command reports the usage, and writes nothing.
fn tells_usage(alloc: Global, line: &str) -> Result<bool, AllocError> {
    let told = called(alloc, line, models::ONE_WIRE, &[], &[], 4096)?;
    Ok(told.ended_with(2, USAGE, 0))
}

/// The status of a call without words, and what it prints.
fn without_words(alloc: Global) -> Result<(u8, Vec<u8>), AllocError> {
    let mut host = MemHost::new(alloc, Vec::new(alloc), Vec::new(alloc), 4096);
    let mut out = MemSink::new(alloc, Vec::new(alloc), 4096);
    let status = run_tool(alloc, &[], &mut host, &mut out);
    Ok((status, out.bytes().to_vec(alloc)?))
}

#[test]
fn usage(rt: HostRuntime) -> Result<(), Fail> {
    for &line in NOTHING {
        assert!(rt; tells_usage(rt.alloc(), line)?, "{line}");
    }
    let (status, text) = without_words(rt.alloc())?;
    assert_eq!(rt; (status, text.as_slice()), (2, USAGE.as_bytes()));
    Ok(())
}

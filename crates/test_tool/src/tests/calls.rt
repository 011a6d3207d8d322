use std::alloc::{AllocError, Global};
use std::test::Fail;
use test_calls::{End, Faults, Files, NO_FAULT, NONE, called_so, models};
use test_models::MADE;

/// A command, the model, the calls that fail, how the command ends, and the text that is written, where that is reported.
type Call = (
    &'static str,
    &'static str,
    Faults,
    End,
    Option<&'static str>,
);

/// What the names of models stand for; other texts stand for themselves.
fn bytes_of(model: &'static str) -> &'static [u8] {
    match model {
        ONE_WIRE => models::ONE_WIRE,
        ONE_DELAY => models::ONE_DELAY,
        SCOPE => models::SCOPE,
        THE_MODEL => MADE.as_bytes(),
        _ => model.as_bytes(),
    }
}

/// Whether such a call ends so.
fn ends_so(alloc: Global, call: &Call) -> Result<bool, AllocError> {
    let (line, model, faults, end, code) = *call;
    let files = Files {
        model: bytes_of(model),
        code: b"",
        trace: b"",
    };
    let told = called_so(alloc, line, files, faults)?;
    let is_code = match code {
        Some(code) => told.code.as_slice() == bytes_of(code),
        None => true,
    };
    Ok(told.is_end(end) && is_code)
}

// Names of models, and of the one that is made.
const ONE_WIRE: &str = "one wire";

const ONE_DELAY: &str = "one delay";

const SCOPE: &str = "a scope";

const THE_MODEL: &str = "the smallest model";

const COMPILE: &str = "compile a.mdl a.c";

const PROFILE: &str = "profile a.mdl";

const GEN: &str = "gen 1 1 g.mdl g.c";

const REPORT: &str =
    "system top inputs 1 outputs 1 functions 1\nout 1 needs none outputs 1\nsystems 1\n";

const COMPILED: &str = "compiled rows 11 systems 2 functions 3\n";

const ROWS: &str =
    "compiled rows 11 systems 2 functions 3\n1045 959\n-2168 -3213\n-887 1281\n-3260 -2373\n";

const CALLS: &[Call] = &[
    // a missing model, a second read, a first write, a first print and a second print that fail
    (
        "compile b.mdl a.c",
        ONE_WIRE,
        NO_FAULT,
        (5, "read fault\n", 0),
        None,
    ),
    (
        COMPILE,
        ONE_WIRE,
        (&[2], NONE, 16),
        (5, "read fault\n", 0),
        None,
    ),
    (
        COMPILE,
        ONE_WIRE,
        (&[4], NONE, 4096),
        (6, "write fault\n", 1),
        Some(""),
    ),
    (COMPILE, ONE_WIRE, (NONE, &[0], 4096), (7, "", 1), None),
    (COMPILE, ONE_WIRE, (NONE, &[1], 8), (7, "compiled", 1), None),
    // profiles of refused models
    (
        PROFILE,
        SCOPE,
        NO_FAULT,
        (3, "refused F7 Unsupported line 11\n", 0),
        None,
    ),
    (
        PROFILE,
        "Model {\n  Name \"on",
        NO_FAULT,
        (3, "refused F2 Syntax line 2 OpenString\n", 0),
        None,
    ),
    (
        PROFILE,
        "",
        NO_FAULT,
        (3, "refused F3 NoModel line 0\n", 0),
        None,
    ),
    // The calls 0 to 2 of the host read the model.
    (
        "profile b.mdl",
        ONE_DELAY,
        NO_FAULT,
        (5, "read fault\n", 0),
        None,
    ),
    (
        PROFILE,
        ONE_DELAY,
        (&[0], NONE, 4096),
        (5, "read fault\n", 0),
        None,
    ),
    (
        PROFILE,
        ONE_DELAY,
        (&[1], NONE, 4096),
        (5, "read fault\n", 0),
        None,
    ),
    (
        PROFILE,
        ONE_DELAY,
        (&[2], NONE, 4096),
        (5, "read fault\n", 0),
        None,
    ),
    (PROFILE, ONE_DELAY, (&[3], NONE, 4096), (0, REPORT, 0), None),
    (PROFILE, ONE_DELAY, (NONE, &[0], 4096), (7, "", 0), None),
    (PROFILE, ONE_DELAY, (NONE, &[1], 4096), (0, REPORT, 0), None),
    // a report that is cut
    (
        PROFILE,
        ONE_DELAY,
        (NONE, &[1], 10),
        (7, "system top", 0),
        None,
    ),
    // Call 0 of the host opens the model that is made, call 1 writes it, call 2 opens the code, and call 3 writes its first bytes.
    (
        GEN,
        "",
        (&[0], NONE, 4096),
        (6, "write fault\n", 0),
        Some(""),
    ),
    (
        GEN,
        "",
        (&[1], NONE, 4096),
        (6, "write fault\n", 1),
        Some(""),
    ),
    (
        GEN,
        "",
        (&[2], NONE, 4096),
        (6, "write fault\n", 1),
        Some(THE_MODEL),
    ),
    (
        GEN,
        "",
        (&[3], NONE, 4096),
        (6, "write fault\n", 2),
        Some(THE_MODEL),
    ),
    // The compiled line is printed first, then the lines of all four ticks together, and then the totals.
    (GEN, "", (NONE, &[0], 4096), (7, "", 2), None),
    (GEN, "", (NONE, &[1], 4096), (7, COMPILED, 2), None),
    (GEN, "", (NONE, &[2], 4096), (7, ROWS, 2), None),
    // a print that is cut
    (GEN, "", (NONE, &[1], 8), (7, "compiled", 2), None),
];

#[test]
fn calls_that_fail(rt: HostRuntime) -> Result<(), Fail> {
    for call in CALLS {
        let end = call.3;
        assert!(rt; ends_so(rt.alloc(), call)?, "{} {}", call.0, end.1);
    }
    Ok(())
}

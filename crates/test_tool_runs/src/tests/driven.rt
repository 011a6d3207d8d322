use std::alloc::{AllocError, Global};
use std::test::Fail;
use test_calls::{
    Answer, End, Faults, Files, NO_FAULT, NONE, called_so, called_with, models, words_of,
};
use test_models::model_of;
use tool_entry::run_surely;

// A subsystem, row 1, whose outputs are its inputs. A signal goes through both ports, one after the other.
const CROSSED_PORTS: &str = "Inport a OutDataTypeStr=int32; \
     SubSystem s {; Inport x1; Inport x2 Port=2; Outport y1; Outport y2 Port=2; x1 1 > y1 1; x2 1 > y2 1; }; \
     Outport o; a 1 > s 1; s 1 > s 2; s 2 > o 1";

/// How a command ends over a model of crossed ports, other files `b.c` and `t`, and a host and a sink of which these calls
/// fail.
fn crossed(
    alloc: Global,
    line: &str,
    (code, script): (&[u8], &str),
    faults: Faults,
) -> Result<Answer, AllocError> {
    let model = model_of(alloc, CROSSED_PORTS)?;
    let files = Files {
        model: model.as_bytes(),
        code,
        trace: script.as_bytes(),
    };
    called_so(alloc, line, files, faults)
}

/// A command, the script that is in `t`, the calls that fail, and how the command ends.
type Call = (&'static str, &'static str, Faults, End);

/// Whether such a call ends so. A Scope, which isn't compiled, is in `b.c`.
fn ends_so(alloc: Global, call: &Call) -> Result<bool, AllocError> {
    let (line, script, faults, end) = *call;
    Ok(crossed(alloc, line, (models::SCOPE, script), faults)?.is_end(end))
}

const DRIVE: &str = "drive a.mdl a.c 1 t";

const NO_SUBSYSTEM: &str = "script line 0 NoSubsystem\n";

const TWICE: &str = "out 2 9\nout 2 9\n";

const WHOLE: &str = "out 2 9\nout 1 4\nupdate 4 9\nout 2 5";

const CALLS: &[Call] = &[
    // Rows that are no subsystem or aren't there, and other words. No script is there either.
    (
        "drive a.mdl a.c 9 missing",
        "",
        NO_FAULT,
        (4, NO_SUBSYSTEM, 0),
    ),
    (
        "drive a.mdl a.c 0 missing",
        "",
        NO_FAULT,
        (4, NO_SUBSYSTEM, 0),
    ),
    (
        "drive a.mdl a.c 2 missing",
        "",
        NO_FAULT,
        (4, NO_SUBSYSTEM, 0),
    ),
    (
        "drive a.mdl a.c 7 missing",
        "",
        NO_FAULT,
        (4, NO_SUBSYSTEM, 0),
    ),
    (
        "drive a.mdl a.c 01 missing",
        "",
        NO_FAULT,
        (4, NO_SUBSYSTEM, 0),
    ),
    (
        "drive a.mdl a.c s missing",
        "",
        NO_FAULT,
        (4, NO_SUBSYSTEM, 0),
    ),
    (
        "drive a.mdl a.c Top missing",
        "",
        NO_FAULT,
        (4, NO_SUBSYSTEM, 0),
    ),
    (
        "drive a.mdl a.c 4294967297 missing",
        "",
        NO_FAULT,
        (4, NO_SUBSYSTEM, 0),
    ),
    // The model may be the script: its first line is no call. The script of one call, `out 2 9`, is no model.
    (
        "drive a.mdl a.c 1 missing",
        "out 2 9\n",
        NO_FAULT,
        (5, "read fault\n", 1),
    ),
    (
        "drive missing a.c 1 t",
        "out 2 9\n",
        NO_FAULT,
        (5, "read fault\n", 0),
    ),
    (
        "drive a.mdl a.c 1 a.mdl",
        "out 2 9\n",
        NO_FAULT,
        (4, "script line 1 Form\n", 1),
    ),
    (
        "drive t a.c 9 missing",
        "out 2 9\n",
        NO_FAULT,
        (3, "refused F3 NoModel line 0\n", 0),
    ),
    (
        "drive b.c a.c top t",
        "out 2 9\n",
        NO_FAULT,
        (3, "refused F7 Unsupported line 11\n", 0),
    ),
    // Each file is moved whole by one call of the host. Calls 0 to 2 read the model, call 3 opens the code and call 4 writes it,
    // call 5 opens the script, call 6 reads it, and call 7 is to find its end, before which its last line has none. The lines of
    // both functions are put together. There is no call 8, so that none fails.
    (DRIVE, WHOLE, (&[0], NONE, 65_536), (5, "read fault\n", 0)),
    (DRIVE, WHOLE, (&[1], NONE, 65_536), (5, "read fault\n", 0)),
    (DRIVE, WHOLE, (&[2], NONE, 65_536), (5, "read fault\n", 0)),
    (DRIVE, WHOLE, (&[3], NONE, 65_536), (6, "write fault\n", 0)),
    (DRIVE, WHOLE, (&[4], NONE, 65_536), (6, "write fault\n", 1)),
    (DRIVE, WHOLE, (&[5], NONE, 65_536), (5, "read fault\n", 1)),
    (DRIVE, WHOLE, (&[6], NONE, 65_536), (5, "read fault\n", 1)),
    (
        DRIVE,
        WHOLE,
        (&[7], NONE, 65_536),
        (5, "out 2 9\nout 1 4\nread fault\n", 1),
    ),
    (DRIVE, WHOLE, (NONE, &[0], 65_536), (7, "", 1)),
    (DRIVE, WHOLE, (&[7], &[0], 65_536), (7, "", 1)),
    (
        DRIVE,
        WHOLE,
        (&[7], &[1], 65_536),
        (7, "out 2 9\nout 1 4\n", 1),
    ),
    (
        DRIVE,
        WHOLE,
        (NONE, &[2], 65_536),
        (7, "out 2 9\nout 1 4\nout 2 5\n", 1),
    ),
    (DRIVE, WHOLE, (&[8], NONE, 65_536), (0, "* calls 4\n", 1)),
    // A print that moves three bytes, of a text that reports an error, and of lines before it.
    (DRIVE, TWICE, (NONE, &[1], 3), (7, "out", 1)),
    (DRIVE, TWICE, (NONE, &[3], 3), (7, "out 2 9\n", 1)),
    (DRIVE, TWICE, (NONE, &[4], 3), (7, "out 2 9\nscr", 1)),
    (
        "drive a.mdl a.c 9 t",
        TWICE,
        (NONE, &[2], 3),
        (7, "script", 0),
    ),
];

#[test]
fn files_and_faults_of_drives(rt: HostRuntime) -> Result<(), Fail> {
    for call in CALLS {
        let end = call.3;
        assert!(rt; ends_so(rt.alloc(), call)?, "{} {}", call.0, end.1);
    }
    Ok(())
}

/// Scripts, and how they drive a system, whose lines end at a seam, before one and after one, and the last has no end.
const SCRIPTS: &[(&str, End)] = &[
    (
        "out 2 9\nout 1 4\r\nupdate 4 9\nout 2 5",
        (0, "out 2 9\nout 1 4\nout 2 5\nticks 1 steps *", 1),
    ),
    (
        "out 2 9\nout 2 9\nout 1 4\n",
        (4, "out 2 9\nscript line 2 Twice 2\n", 1),
    ),
];

/// Whether a script that is moved by so many bytes drives a system so.
fn drives_in_pieces(
    alloc: Global,
    script: &str,
    piece: usize,
    end: End,
) -> Result<bool, AllocError> {
    Ok(crossed(alloc, DRIVE, (b"".as_slice(), script), (NONE, NONE, piece))?.is_end(end))
}

#[test]
fn scripts_in_pieces(rt: HostRuntime) -> Result<(), Fail> {
    for piece in 1..20 {
        for &(script, end) in SCRIPTS {
            assert!(rt;
                drives_in_pieces(rt.alloc(), script, piece, end)?,
                "{piece} {script}"
            );
        }
    }
    Ok(())
}

/// The status of a command over ends that are sure.
fn surely(alloc: Global, line: &str) -> Result<u8, AllocError> {
    let model = model_of(alloc, CROSSED_PORTS)?;
    let files = Files {
        model: model.as_bytes(),
        code: b"",
        trace: b"out 2 9\nout 1 4\nupdate 4 9\n",
    };
    let words = words_of(alloc, line)?;
    Ok(run_surely(alloc, &words, files.named(alloc)?))
}

#[test]
fn statuses_of_drives(rt: HostRuntime) -> Result<(), Fail> {
    for &(line, status) in &[
        ("drive a.mdl a.c 1 t", 0),
        ("drive a.mdl a.c top b.c", 0),
        ("drive a.mdl a.c top t", 4),
        ("drive a.mdl a.c 2 missing", 4),
        ("drive t a.c 1 t", 3),
    ] {
        assert_eq!(rt; surely(rt.alloc(), line)?, status, "{line}");
    }
    Ok(())
}

use std::alloc::{AllocError, Global};
use std::test::Fail;
use test_calls::{Answer, End, Faults, Files, NO_FAULT, NONE, called_so, models, words_of};
use tool_entry::run_surely;

/// Code that stores its input.
const STORES_INPUT: &str = "#include <stdint.h>
struct root { int32_t y1; };
void root_start(struct root *s) { }
void root_step(struct root *s, int32_t u1) {
s->y1 = (int32_t)(int64_t)u1;
}
";

/// The same with 36 empty lines, which has 198 bytes.
const LONGER: &str = "#include <stdint.h>
struct root { int32_t y1; };
void root_start(struct root *s) { }
void root_step(struct root *s, int32_t u1) {
s->y1 = (int32_t)(int64_t)u1;
}
\n\n\n\n\n\n\n\n\n\n\n\n\n\n\n\n\n\n\n\n\n\n\n\n\n\n\n\n\n\n\n\n\n\n\n\n";

const DIVIDES_IN_ITS_START: &str = "#include <stdint.h>
struct root { int32_t y1; };
void root_start(struct root *s) {
s->y1 = (int32_t)(INT64_C(1) / INT64_C(0));
}
void root_step(struct root *s, int32_t u1) { }
";

/// How a command ends over one wire's model, this code and this trace, and a host and a sink of which these calls fail.
fn called(
    alloc: Global,
    line: &str,
    (code, trace): (&str, &str),
    faults: Faults,
) -> Result<Answer, AllocError> {
    let files = Files {
        model: models::ONE_WIRE,
        code: code.as_bytes(),
        trace: trace.as_bytes(),
    };
    called_so(alloc, line, files, faults)
}

/// A command, the code, the trace, the calls that fail, and how the command ends.
type Call = (&'static str, &'static str, &'static str, Faults, End);

/// Whether such a call ends so.
fn ends_so(alloc: Global, call: &Call) -> Result<bool, AllocError> {
    let (line, code, trace, faults, end) = *call;
    Ok(called(alloc, line, (code, trace), faults)?.is_end(end))
}

const RUN: &str = "run a.mdl a.c t";

const EXEC: &str = "exec b.c t";

const CALLS: &[Call] = &[
    // code that begins otherwise, code that is stuck in its start, without its trace, and refused code without its trace
    (
        EXEC,
        "int main;",
        "",
        NO_FAULT,
        (8, "code refused line 1 Syntax\n", 0),
    ),
    (
        "exec b.c missing",
        DIVIDES_IN_ITS_START,
        "",
        NO_FAULT,
        (9, "stuck line 4 ZeroDivisor\n", 0),
    ),
    (
        "exec b.c missing",
        "int main;",
        "",
        NO_FAULT,
        (8, "code refused line 1 Syntax\n", 0),
    ),
    // Of `exec` the calls 0 to 2 of the host read the code, call 3 opens the trace; of `run` calls 0 to 2 read the model, and
    // call 3 opens the code.
    (EXEC, STORES_INPUT, "5\n", (NONE, &[0], 4096), (7, "", 0)),
    (EXEC, STORES_INPUT, "5\n", (NONE, &[1], 4096), (7, "5\n", 0)),
    (
        EXEC,
        STORES_INPUT,
        "5\n",
        (&[1], NONE, 4096),
        (5, "read fault\n", 0),
    ),
    (
        EXEC,
        STORES_INPUT,
        "5\n",
        (&[4], NONE, 4096),
        (5, "read fault\n", 0),
    ),
    (
        "exec b.c missing",
        STORES_INPUT,
        "5\n",
        NO_FAULT,
        (5, "read fault\n", 0),
    ),
    (
        "run a.mdl a.c missing",
        STORES_INPUT,
        "5\n",
        NO_FAULT,
        (5, "read fault\n", 1),
    ),
    (
        RUN,
        STORES_INPUT,
        "5\n",
        (&[3], NONE, 4096),
        (6, "write fault\n", 0),
    ),
    (RUN, STORES_INPUT, "5\n", (NONE, &[0], 4096), (7, "", 1)),
    (
        "run t a.c t",
        STORES_INPUT,
        "5\n",
        NO_FAULT,
        (3, "refused F2 Syntax line 1 BadName\n", 0),
    ),
    // The trace of one wire's model, byte by byte.
    (
        RUN,
        "",
        "5\n-7\n2147483647",
        (NONE, NONE, 1),
        (0, "5\n-7\n2147483647\nticks 3 steps * calls 6\n", 1),
    ),
    // A trace that cannot be read on. Call 0 of the host opens the code, 99 calls read it in pieces of two bytes, and call 100
    // finds its end; call 101 opens the trace, call 102 reads its first line, and call 103 fails.
    (
        EXEC,
        LONGER,
        "5\n-7\n",
        (&[103], NONE, 2),
        (5, "5\nread fault\n", 0),
    ),
];

#[test]
fn files_and_faults_of_runs(rt: HostRuntime) -> Result<(), Fail> {
    for call in CALLS {
        let end = call.4;
        assert!(rt; ends_so(rt.alloc(), call)?, "{} {}", call.0, end.1);
    }
    Ok(())
}

/// Whether `exec` ends so over a trace that is moved by so many bytes.
fn executes_in_pieces(
    alloc: Global,
    trace: &str,
    piece: usize,
    end: End,
) -> Result<bool, AllocError> {
    Ok(called(alloc, EXEC, (STORES_INPUT, trace), (NONE, NONE, piece))?.is_end(end))
}

/// Traces, and how `exec` ends over them, whose lines end at a seam, before one and after one, and the last has no end.
const PIECES: &[(&str, End)] = &[
    (
        "5\n-7\r\n2147483647",
        (0, "5\n-7\n2147483647\nticks 3 steps 3 calls 0\n", 0),
    ),
    ("5\n-7\nx\n8\n", (4, "5\n-7\ntrace line 3 Form 1\n", 0)),
];

/// The status of a command over ends that are sure.
fn surely(alloc: Global, line: &str) -> Result<u8, AllocError> {
    let files = Files {
        model: models::ONE_WIRE,
        code: STORES_INPUT.as_bytes(),
        trace: b"5\n",
    };
    let words = words_of(alloc, line)?;
    Ok(run_surely(alloc, &words, files.named(alloc)?))
}

#[test]
fn runs_in_pieces_and_over_sure_ends(rt: HostRuntime) -> Result<(), Fail> {
    for piece in 1..65 {
        for &(trace, end) in PIECES {
            assert!(rt;
                executes_in_pieces(rt.alloc(), trace, piece, end)?,
                "{piece} {trace}"
            );
        }
    }
    for &line in &[RUN, EXEC] {
        assert_eq!(rt; surely(rt.alloc(), line)?, 0, "{line}");
    }
    Ok(())
}

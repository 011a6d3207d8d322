ghost use Rattle.std.specs.Prelude.{◌<◌};

use std::alloc::{AllocError, Global};
use std::test::Fail;
use test_calls::{Answer, Files, called_in_pieces, compiled, models};
use test_models::model_of;

/// How a command ends of which one call fails: its status, the lines printed before the last, and how many files are written.
type Fault = (u8, &'static str, usize);

/// The line that is printed last where a call fails.
fn last_line(status: u8) -> &'static str {
    match status {
        5 => "read fault\n",
        6 => "write fault\n",
        _ => "",
    }
}

// Whether a command ended so. What is written is a front of what is written where nothing fails, and all of it but where a write failed.
fn ended(alloc: Global, told: &Answer, whole: &Answer, fault: Fault) -> Result<bool, AllocError> {
    let (status, lines, files) = fault;
    let put = format!(in alloc; "{lines}{}", last_line(status))?;
    Ok(
        told.status == status
            && told.files == files
            && told.text.as_slice() == put.as_bytes()
            && whole.code.starts_with(&told.code)
            && (status == 6 || files == 0 || told.code == whole.code)
            && told.refused == 0,
    )
}

// Whether a command ends so where these calls of the host and of the sink fail.
fn fails_so(
    alloc: Global,
    (line, texts): (&str, Files<'_>),
    whole: &Answer,
    (fails, put_fails): (&[u64], &[u64]),
    fault: Fault,
) -> Result<bool, AllocError> {
    let told = called_in_pieces(alloc, line, texts, fails, put_fails, 65_536)?;
    ended(alloc, &told, whole, fault)
}

// Whether a command ends so where each call of the host fails alone, by its number, and then each of the sink.
fn all_fail_so(
    alloc: Global,
    command: (&str, Files<'_>),
    whole: &Answer,
    host: &[Fault],
    puts: &[Fault],
) -> Result<bool, AllocError> {
    for (call, &fault) in host.iter().enumerate() {
        if !fails_so(alloc, command, whole, (&[call as u64], &[]), fault)? {
            return Ok(false);
        }
    }
    for (put, &fault) in puts.iter().enumerate() {
        if !fails_so(alloc, command, whole, (&[], &[put as u64]), fault)? {
            return Ok(false);
        }
    }
    Ok(whole.status == 0)
}

// Each call fails alone, of the host and of the sink. A failure of the call after the last isn't met.
fn all_fail(
    alloc: Global,
    command: (&str, Files<'_>),
    host: &[Fault],
    puts: &[Fault],
) -> Result<bool, AllocError> {
    let (unmet, unmet_put) = ([host.len() as u64], [puts.len() as u64]);
    let whole = called_in_pieces(alloc, command.0, command.1, &unmet, &unmet_put, 65_536)?;
    all_fail_so(alloc, command, &whole, host, puts)
}

// A file is opened, read, and read to its end; one that is written is opened, and written at once.
const COMPILE: &[Fault] = &[(5, "", 0), (5, "", 0), (5, "", 0), (6, "", 0), (6, "", 1)];

// The trace is read after the code that was written, and its lines are printed before the totals.
const RUN: &[Fault] = &[
    (5, "", 0),
    (5, "", 0),
    (5, "", 0),
    (6, "", 0),
    (6, "", 1),
    (5, "", 1),
    (5, "", 1),
    (5, "5\n-7\n", 1),
];

const EXEC: &[Fault] = &[
    (5, "", 0),
    (5, "", 0),
    (5, "", 0),
    (5, "", 0),
    (5, "", 0),
    (5, "5\n-7\n", 0),
];

const PROFILE: &[Fault] = &[(5, "", 0), (5, "", 0), (5, "", 0)];

const DRIVE: &[Fault] = &[
    (5, "", 0),
    (5, "", 0),
    (5, "", 0),
    (6, "", 0),
    (6, "", 1),
    (5, "", 1),
    (5, "", 1),
    (5, "out 2 9\nout 1 4\n", 1),
];

// Nothing is read.
const GEN: &[Fault] = &[(6, "", 0), (6, "", 1), (6, "", 1), (6, "", 2)];

// The lines that wait are printed together, and then the last one.
const PUT_ONE: &[Fault] = &[(7, "", 1)];

const PUT_REPORT: &[Fault] = &[(7, "", 0)];

const PUT_RUN: &[Fault] = &[(7, "", 1), (7, "5\n-7\n", 1)];

const PUT_EXEC: &[Fault] = &[(7, "", 0), (7, "5\n-7\n", 0)];

const PUT_DRIVE: &[Fault] = &[(7, "", 1), (7, "out 2 9\nout 1 4\n", 1)];

const PUT_GEN: &[Fault] = &[(7, "", 2), (7, COMPILED, 2), (7, MADE, 2)];

const COMPILED: &str = "compiled rows 11 systems 2 functions 3\n";

const MADE: &str =
    "compiled rows 11 systems 2 functions 3\n1045 959\n-2168 -3213\n-887 1281\n-3260 -2373\n";

/// A command, whether it is over the model of crossed ports and its script, how it ends where one call of the host fails, and how
/// where one of the sink does, by the numbers of these calls.
type Row = (&'static str, bool, &'static [Fault], &'static [Fault]);

/// Each command: over one wire, over its code, and over a model with a subsystem through which a signal goes twice.
const ROWS: &[Row] = &[
    ("compile a.mdl a.c", false, COMPILE, PUT_ONE),
    ("run a.mdl a.c t", false, RUN, PUT_RUN),
    ("exec b.c t", false, EXEC, PUT_EXEC),
    ("profile a.mdl", true, PROFILE, PUT_REPORT),
    ("drive a.mdl a.c 1 t", true, DRIVE, PUT_DRIVE),
    ("gen 1 1 g.mdl g.c", false, GEN, PUT_GEN),
];

fn crossed(alloc: Global) -> Result<String, AllocError> {
    model_of(
        alloc,
        "Inport a OutDataTypeStr=int32; \
         SubSystem s {; Inport x1; Inport x2 Port=2; Outport y1; Outport y2 Port=2; x1 1 > y1 1; x2 1 > y2 1; }; \
         Outport o; a 1 > s 1; s 1 > s 2; s 2 > o 1",
    )
}

// Whether what is written and printed are fronts of what they are where nothing fails.
fn is_front(told: &Answer, whole: &Answer) -> bool {
    let line = last_line(told.status).as_bytes();
    let before = told.text.len().saturating_sub(line.len());
    5 <= told.status
        && told.status <= 7
        && told.text.ends_with(line)
        && whole
            .text
            .starts_with(told.text.get(..before).unwrap_or(&[]))
        && told.files <= whole.files
        && whole.code.starts_with(&told.code)
}

// Whether a command ends as it does where nothing fails, if the call that is to fail isn't met; none if it ends with fronts.
fn outcome(told: &Answer, whole: &Answer) -> Option<bool> {
    if told.status == 0 {
        Some(whole.status == 0 && told.text == whole.text && told.code == whole.code)
    } else if is_front(told, whole) {
        None
    } else {
        Some(false)
    }
}

// Whether a command ends with fronts where a call fails alone, of the host or else of the sink, for each up to the first that
// isn't met.
fn all_end_with_fronts(
    alloc: Global,
    command: (&str, Files<'_>),
    whole: &Answer,
    of_host: bool,
    piece: usize,
) -> Result<bool, AllocError>
    requires { 0 < piece }
{
    let nothing: &[u64] = &[];
    for call in 0..200 {
        let failing = [call];
        let (fails, put_fails) = if of_host {
            (failing.as_slice(), nothing)
        } else {
            (nothing, failing.as_slice())
        };
        let told = called_in_pieces(alloc, command.0, command.1, fails, put_fails, piece)?;
        if let Some(is_so) = outcome(&told, whole) {
            return Ok(is_so);
        }
    }
    Ok(false)
}

// The same where a call moves a part of a text.
fn all_are_fronts(
    alloc: Global,
    command: (&str, Files<'_>),
    of_host: bool,
    piece: usize,
) -> Result<bool, AllocError>
    requires { 0 < piece }
{
    let whole = called_in_pieces(alloc, command.0, command.1, &[], &[], piece)?;
    all_end_with_fronts(alloc, command, &whole, of_host, piece)
}

// Whether each call of a command fails alone so, where one call moves a whole text, and where it moves a part of it.
fn each_fails_alone(alloc: Global, row: &Row) -> Result<bool, AllocError> {
    let (line, is_crossed, host, puts) = *row;
    let wire = compiled(alloc, models::ONE_WIRE)?;
    let crossed = crossed(alloc)?;
    let (model, trace) = if is_crossed {
        (
            crossed.as_bytes(),
            b"out 2 9\nout 1 4\nupdate 4 9\n".as_slice(),
        )
    } else {
        (models::ONE_WIRE, b"5\n-7\n".as_slice())
    };
    let texts = Files {
        model,
        code: &wire.code,
        trace,
    };
    let command = (line, texts);
    Ok(
        all_fail(alloc, command, host, puts)?
            && all_are_fronts(alloc, command, true, 128)?
            && all_are_fronts(alloc, command, false, 16)?,
    )
}

#[test]
fn each_call_fails_alone(rt: HostRuntime) -> Result<(), Fail> {
    for row in ROWS {
        assert!(rt; each_fails_alone(rt.alloc(), row)?, "{}", row.0);
    }
    Ok(())
}

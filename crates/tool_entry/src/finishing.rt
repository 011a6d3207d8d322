ghost use Rattle.std.specs.Prelude.{◌≡◌, IfOk, MatchResult, string_bytes};
ghost use Rattle.tool_endings.specs.declared.ending.Ending.{Ending};
ghost use Rattle.tool_endings.specs.Told.{sink_told};
ghost use Rattle.tool_endings.specs.Texts.{script_stop_line};
ghost use Rattle.tool_endings.specs.Endings.{text_of, status_of, IsFaultless, IsSaidOf, PutsText, Puts};

use base_core::Memory;
use base_host::{Failed, Sink, put_all};
use base_refusals::refusal_text;
use std::alloc::{AllocError, Global};
use tool_endings::{
    Ending, ScriptStop, USAGE, bad_line_line, code_refused_line, compiled_line, flow_stuck_line,
    long_delay_line, lustre_refused_line, nodes_line, stuck_line, ticks_line, totals_line,
};
use tool_script_runner::{bad_call_line, refused_call_line};

// Bytes of a text.
fn bytes_of(alloc: Global, text: &str) -> Result<Vec<u8>, Memory>
    ensures { IfOk result (λ bytes. bytes.items ≡ text.now) }
{
    text.as_bytes().to_vec(alloc).map_err(|_| Memory)
}

// Bytes of a line that was made.
fn line_bytes(line: Result<String, AllocError>) -> Result<Vec<u8>, Memory>
    ensures { IfOk result (λ bytes. MatchResult line (λ text. bytes.items ≡ string_bytes text) (λ _. ⊥)) }
{
    match line {
        Ok(line) => Ok(line.into_bytes()),
        Err(_) => Err(Memory),
    }
}

// The text of what stops a script.
fn script_stop_text(alloc: Global, stop: ScriptStop) -> Result<Vec<u8>, Memory>
    ensures { IfOk result (λ bytes. bytes.items ≡ script_stop_line stop) }
{
    match stop {
        ScriptStop::NoSubsystem => bytes_of(alloc, "script line 0 NoSubsystem\n"),
        ScriptStop::Line(bad) => Ok(bad_call_line(alloc, bad)?.into_bytes()),
        ScriptStop::Call(refused) => Ok(refused_call_line(alloc, refused)?.into_bytes()),
    }
}

// The text of an ending. A report is its own.
fn text(alloc: Global, ending: Ending) -> Result<Vec<u8>, Memory>
    ensures { IfOk result (λ bytes. bytes.items ≡ text_of ending) }
{
    match ending {
        Ending::Compiled {
            rows,
            systems,
            functions,
        } => line_bytes(compiled_line(alloc, rows, systems, functions)),
        Ending::Ran(totals) => line_bytes(totals_line(alloc, totals)),
        Ending::Reported(report) => Ok(report),
        Ending::Noded(nodes) => line_bytes(nodes_line(alloc, nodes)),
        Ending::Flowed(ticks) => line_bytes(ticks_line(alloc, ticks)),
        Ending::Usage => bytes_of(alloc, USAGE),
        Ending::Refused(refusal) => refusal_text(alloc, &refusal),
        Ending::BadTrace(bad) => line_bytes(bad_line_line(alloc, bad)),
        Ending::BadScript(stop) => script_stop_text(alloc, stop),
        Ending::CodeRefused(fault) => line_bytes(code_refused_line(alloc, fault)),
        Ending::CodeTooLong => bytes_of(alloc, "code refused TooLong\n"),
        Ending::Stuck(at) => line_bytes(stuck_line(alloc, at)),
        Ending::LustreRefused(fault) => line_bytes(lustre_refused_line(alloc, fault)),
        Ending::LustreTooLong => bytes_of(alloc, "lustre refused TooLong\n"),
        Ending::LustreLong(place) => line_bytes(long_delay_line(alloc, place)),
        Ending::FlowStuck(at) => line_bytes(flow_stuck_line(alloc, at)),
        Ending::ReadFault => bytes_of(alloc, "read fault\n"),
        Ending::WriteFault => bytes_of(alloc, "write fault\n"),
        Ending::PutFault => bytes_of(alloc, ""),
        Ending::NoMemory => bytes_of(alloc, "no memory\n"),
    }
}

// The status of an ending.
fn status(ending: &Ending) -> u8
    ensures { result ≡ status_of ending.now }
{
    match ending {
        Ending::Compiled { .. }
        | Ending::Ran(_)
        | Ending::Reported(_)
        | Ending::Noded(_)
        | Ending::Flowed(_) => 0,
        Ending::Usage => 2,
        Ending::Refused(_) => 3,
        Ending::BadTrace(_) | Ending::BadScript(_) => 4,
        Ending::ReadFault => 5,
        Ending::WriteFault => 6,
        Ending::PutFault => 7,
        Ending::CodeRefused(_) | Ending::CodeTooLong => 8,
        Ending::Stuck(_) | Ending::FlowStuck(_) => 9,
        Ending::NoMemory => 10,
        Ending::LustreRefused(_) | Ending::LustreTooLong | Ending::LustreLong(_) => 11,
    }
}

// Prints the text of an ending with this status, and says the status.
fn put_text<S: Sink>(out: &mut S, status: u8, text: &[u8]) -> u8
    ensures { let at = sink_told S.bytes S.faults in
        PutsText status text.now result (at out.old) (at out.new) }
{
    match put_all(out, text) {
        Ok(()) => status,
        Err(Failed) => 7,
    }
}

// Prints the text of an ending that reports no error, or that memory ran out, and says the status.
fn put_made<S: Sink>(alloc: Global, out: &mut S, ending: Ending) -> u8
    requires { IsFaultless ending }
    ensures { let at = sink_told S.bytes S.faults in
        (e : Ending) × IsSaidOf e ending × Puts e result (at out.old) (at out.new) }
{
    let found = status(&ending);
    match text(alloc, ending) {
        Ok(text) => put_text(out, found, &text),
        Err(Memory) => put_text(out, 10, b"no memory\n"),
    }
}

/// Prints an ending's text and says the status. Without memory for it that is reported instead, but not for an error. Where a
/// line couldn't be printed, nothing more is.
pub fn finish<S: Sink>(alloc: Global, out: &mut S, ending: Ending) -> u8
    ensures { let at = sink_told S.bytes S.faults in
        (e : Ending) × IsSaidOf e ending × Puts e result (at out.old) (at out.new) }
{
    match ending {
        Ending::PutFault => put_text(out, 7, b""),
        // An error is reported also where memory has run out.
        Ending::ReadFault => put_text(out, 5, b"read fault\n"),
        Ending::WriteFault => put_text(out, 6, b"write fault\n"),
        other => put_made(alloc, out, other),
    }
}

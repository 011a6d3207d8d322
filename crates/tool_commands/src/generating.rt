ghost use Rattle.std.specs.Prelude.{◌≡◌, ◌<◌, ◌≤◌, Some, IfOk, IfErr, OnOk, OnErr};
ghost use Rattle.base_host.specs.Faults.{HasCause};
ghost use Rattle.base_host.specs.Files.{add_file};
ghost use Rattle.tool_words.specs.Words.{Gen};
ghost use Rattle.tool_endings.specs.Told.{told, sink_told};
ghost use Rattle.tool_endings.specs.EndingsOfGenerating.{WritesFrontOfTwo, line_of};
ghost use Rattle.tool_endings.specs.Endings.{PutsWhole, Ends};
ghost use Rattle.tool_endings.specs.Acting.{WritesMade, NotMade, NotPut};

use base_core::Memory;
use base_host::{Failed, Host, Sink, put_all, write_all};
use c_reading_laws::readings_agree;
use diagram_verdict::ModelFault;
use right_generated::generated_traces_are_rows;
use std::alloc::Global;
use tool_compiled::Compiled;
use tool_compiler::compile;
use tool_endings::{Ending, compiled_line};
use tool_generator::{generate, generate_trace};
use tool_steps::{run_rows, started};

// Writes two files whole, one after the other.
fn write_both<H: Host>(
    host: &mut H,
    model: &str,
    text: &[u8],
    code: &str,
    bytes: &[u8],
) -> Result<(), Failed>
    ensures whole { OnOk result (H.written host.new
        ≡ add_file (add_file (H.written host.old) model.now text.now) code.now bytes.now) }
    ensures front { OnErr result (WritesFrontOfTwo (H.written host.old) (H.written host.new)
        model.now text.now code.now bytes.now) }
    ensures cause { HasCause (H.write_faults host.old) (H.write_faults host.new) result }
    ensures read_faults { H.read_faults host.new ≡ H.read_faults host.old }
{
    write_all(host, model, text)?;
    write_all(host, code, bytes)
}

// Makes a model, compiles it, and writes its text into the file `model` and its code into the file `code`. A model that is refused
// isn't written.
fn make_into<H: Host>(
    alloc: Global,
    host: &mut H,
    start: u32,
    size: u32,
    model: &str,
    code: &str,
) -> Result<Compiled, Ending>
    requires start { (0 < start) × (start ≤ 2147483646) }
    requires size { (0 < size) × (size ≤ 2499) }
    ensures made { let at = told H.files H.rest H.given H.written H.sure H.read_faults H.write_faults in
        IfOk result (λ compiled. WritesMade compiled start size model.now code.now (at host.old)
        (at host.new)) }
    ensures ended { let at = told H.files H.rest H.given H.written H.sure H.read_faults H.write_faults in
        IfErr result (λ ending. NotMade ending start size model.now code.now (at host.old)
        (at host.new)) }
{
    let text = match generate(alloc, start, size) {
        Ok(text) => text,
        Err(Memory) => return Err(Ending::NoMemory),
    };
    let compiled = match compile(alloc, &text) {
        Ok(compiled) => compiled,
        Err(ModelFault::Refused(refusal)) => return Err(Ending::Refused(refusal)),
        Err(ModelFault::Memory) => return Err(Ending::NoMemory),
    };
    match write_both(host, model, &text, code, &compiled.code) {
        Ok(()) => Ok(compiled),
        Err(Failed) => Err(Ending::WriteFault),
    }
}

// Prints the line of a compilation's counts.
fn put_line<S: Sink>(alloc: Global, out: &mut S, compiled: &Compiled) -> Result<(), Ending>
    ensures put { let sink = sink_told S.bytes S.faults in
        OnOk result (PutsWhole (line_of compiled.now) (sink out.old) (sink out.new)) }
    ensures ended { let sink = sink_told S.bytes S.faults in
        IfErr result (λ ending. NotPut ending compiled.now (sink out.old) (sink out.new)) }
{
    let line = compiled_line(alloc, compiled.rows, compiled.systems, compiled.functions);
    let Ok(line) = line else {
        return Err(Ending::NoMemory);
    };
    match put_all(out, line.as_bytes()) {
        Ok(()) => Ok(()),
        Err(Failed) => Err(Ending::PutFault),
    }
}

/// Makes the model of these two numbers into the file `model`, compiles it into the file `code`, and runs what was written over
/// the trace that is made with it. The line of the compilation's counts is printed before the lines of the ticks. No file is read.
pub fn generate_model<H: Host, S: Sink>(
    alloc: Global,
    host: &mut H,
    out: &mut S,
    start: u32,
    size: u32,
    model: &str,
    code: &str,
) -> Ending
    requires start { (0 < start) × (start ≤ 2147483646) }
    requires size { (0 < size) × (size ≤ 2499) }
    ensures ends { let at = told H.files H.rest H.given H.written H.sure H.read_faults H.write_faults in
        let sink = sink_told S.bytes S.faults in
        Ends result (Some (Gen start size model.now code.now)) (at host.old) (at host.new)
        (sink out.old) (sink out.new) }
{
    let compiled = match make_into(alloc, host, start, size, model, code) {
        Ok(compiled) => compiled,
        Err(ending) => return ending,
    };
    if let Err(ending) = put_line(alloc, out, &compiled) {
        return ending;
    }
    readings_agree();
    let mut machine = match started(alloc, &compiled.code) {
        Ok(machine) => machine,
        // Right code is read and starts, so that only memory can run out.
        Err(ending) => return ending,
    };
    generated_traces_are_rows();
    match generate_trace(alloc, start, size) {
        Ok(trace) => run_rows(alloc, out, &mut machine, &compiled.inputs, &trace),
        Err(Memory) => Ending::NoMemory,
    }
}

ghost use Rattle.std.specs.Prelude.{◌≡◌, Some, IfSome, false};
ghost use Rattle.tool_words.specs.Words.{HasBounds, asked, asked_by, word_bytes};
ghost use Rattle.tool_words.specs.Words.Asked.{Compile, Run};
ghost use Rattle.tool_endings.specs.Told.{told, sink_told};
ghost use Rattle.tool_endings.specs.EndingsOfModels.{EndsCompile};
ghost use Rattle.tool_endings.specs.Endings.{Ends};
ghost use Rattle.tool_endings.specs.Completeness.{IfReadFault, IsUnsureOf};

use crate::compiling::compile_into;
use crate::driving::drive_model;
use crate::generating::generate_model;
use base_core::Memory;
use base_host::{Host, Sink};
use c_reading_laws::readings_agree;
use std::alloc::Global;
use tool_endings::Ending;
use tool_flow_steps::flow_file;
use tool_lustre_steps::make_lustre;
use tool_steps::{exec_code, profile_model, run_file, started};
use tool_words::{Command, command};

// Compiles the file `model` into the file `code`.
fn compile_model<H: Host>(alloc: Global, host: &mut H, model: &str, code: &str) -> Ending
    ensures ends { let at = told H.files H.rest H.given H.written H.sure H.read_faults H.write_faults in
        EndsCompile result model.now code.now (at host.old) (at host.new) }
    ensures unsure { IfReadFault result (H.sure host.old model.now ≡ false) }
{
    match compile_into(alloc, host, model, code) {
        Ok(compiled) => Ending::Compiled {
            rows: compiled.rows,
            systems: compiled.systems,
            functions: compiled.functions,
        },
        Err(ending) => ending,
    }
}

// Compiles the file `model` into the file `code`, and runs what was written over the file `trace`.
fn run_model<H: Host, S: Sink>(
    alloc: Global,
    host: &mut H,
    out: &mut S,
    model: &str,
    code: &str,
    trace: &str,
) -> Ending
    ensures ends { let at = told H.files H.rest H.given H.written H.sure H.read_faults H.write_faults in
        let sink = sink_told S.bytes S.faults in
        Ends result (Some (Run model.now code.now trace.now)) (at host.old) (at host.new)
        (sink out.old) (sink out.new) }
    ensures unsure { IfReadFault result
        (IsUnsureOf H.files H.sure host.old (Run model.now code.now trace.now)) }
{
    let compiled = match compile_into(alloc, host, model, code) {
        Ok(compiled) => compiled,
        Err(ending) => return ending,
    };
    readings_agree();
    match started(alloc, &compiled.code) {
        Ok(mut machine) => run_file(alloc, host, out, &mut machine, &compiled.inputs, trace),
        // Right code is read and starts, so that only memory can run out.
        Err(ending) => ending,
    }
}

// Does what a command asks for, except for the last text that is printed.
fn perform<H: Host, S: Sink>(alloc: Global, command: Command, host: &mut H, out: &mut S) -> Ending
    requires { HasBounds command }
    ensures ends { let at = told H.files H.rest H.given H.written H.sure H.read_faults H.write_faults in
        let sink = sink_told S.bytes S.faults in
        Ends result (Some (asked command.entry)) (at host.old) (at host.new) (sink out.old)
        (sink out.new) }
    ensures unsure { IfReadFault result (IsUnsureOf H.files H.sure host.old (asked command.entry)) }
{
    match command {
        Command::Compile { model, code } => compile_model(alloc, host, model, code),
        Command::Run { model, code, trace } => run_model(alloc, host, out, model, code, trace),
        Command::Exec { code, trace } => exec_code(alloc, host, out, code, trace),
        Command::Profile { model } => profile_model(alloc, host, model),
        Command::Drive {
            model,
            code,
            subsystem,
            script,
        } => drive_model(alloc, host, out, model, code, subsystem, script),
        Command::Gen {
            start,
            size,
            model,
            code,
        } => generate_model(alloc, host, out, start, size, model, code),
        Command::Lustre { model, file } => make_lustre(alloc, host, model, file),
        Command::Flow { file, trace } => flow_file(alloc, host, out, file, trace),
    }
}

/// Does what the words ask for, except for the last text that is printed.
pub fn act<H: Host, S: Sink>(alloc: Global, words: &[String], host: &mut H, out: &mut S) -> Ending
    ensures ends { let at = told H.files H.rest H.given H.written H.sure H.read_faults H.write_faults in
        let sink = sink_told S.bytes S.faults in
        Ends result (asked_by (word_bytes words.now)) (at host.old) (at host.new) (sink out.old)
        (sink out.new) }
    ensures unsure { IfSome (asked_by (word_bytes words.now))
        (λ asked. IfReadFault result (IsUnsureOf H.files H.sure host.old asked)) }
{
    match command(alloc, words) {
        Ok(Some(command)) => perform(alloc, command, host, out),
        Ok(None) => Ending::Usage,
        Err(Memory) => Ending::NoMemory,
    }
}

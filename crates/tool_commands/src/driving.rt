ghost use Rattle.std.specs.Prelude.{Some};
ghost use Rattle.tool_words.specs.Words.{Drive};
ghost use Rattle.tool_endings.specs.Told.{told, sink_told};
ghost use Rattle.tool_endings.specs.Endings.{Ends};
ghost use Rattle.tool_endings.specs.Completeness.{IfReadFault, IsUnsureOf};

use crate::compiling::write_code;
use base_host::{Host, Sink};
use std::alloc::Global;
use tool_endings::{Ending, ScriptStop};
use tool_steps::{AcceptedFile, accept_file, drive_file, driver_in};
use tool_system_driver::system_named;

/// Compiles the file `model` into the file `code`, and drives the system of the word `subsystem` in what was written by the calls
/// of the file `script`. Where no system has that name, nothing is written.
pub fn drive_model<H: Host, S: Sink>(
    alloc: Global,
    host: &mut H,
    out: &mut S,
    model: &str,
    code: &str,
    subsystem: &str,
    script: &str,
) -> Ending
    ensures ends { let at = told H.files H.rest H.given H.written H.sure H.read_faults H.write_faults in
        let sink = sink_told S.bytes S.faults in
        Ends result (Some (Drive model.now code.now subsystem.now script.now))
        (at host.old) (at host.new) (sink out.old) (sink out.new) }
    ensures unsure { IfReadFault result (IsUnsureOf H.files H.sure host.old
        (Drive model.now code.now subsystem.now script.now)) }
{
    let AcceptedFile { resolved, labels } = match accept_file(alloc, host, model) {
        Ok(accepted) => accepted,
        Err(ending) => return ending,
    };
    let Some(system) = system_named(&resolved, subsystem.as_bytes()) else {
        return Ending::BadScript(ScriptStop::NoSubsystem);
    };
    let compiled = match write_code(alloc, host, &resolved, &labels, code) {
        Ok(compiled) => compiled,
        Err(ending) => return ending,
    };
    match driver_in(alloc, &resolved, system, &compiled) {
        Ok(mut driver) => drive_file(alloc, host, out, &mut driver, script),
        Err(ending) => ending,
    }
}

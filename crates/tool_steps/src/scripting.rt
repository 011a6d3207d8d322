ghost use Rattle.std.specs.Prelude.{◌≡◌, false, []};
ghost use Rattle.tool_driver.specs.Driven.{Driven, StandsFor};
ghost use Rattle.tool_endings.specs.Told.{told, sink_told};
ghost use Rattle.tool_endings.specs.Endings.{CountsPuts};
ghost use Rattle.tool_endings.specs.Acting.{DriveEnds};
ghost use Rattle.tool_endings.specs.Completeness.{IfReadFault};

use base_host::{Host, Sink};
use std::alloc::Global;
use tool_driver::Driver;
use tool_endings::{Ending, ScriptStop};
use tool_runner::Totals;
use tool_script_runner::{ScriptFault, run_script, scripts_are_driven};

/// Makes the calls of the file `script` by a driver that stands for the empty script, each once and in order, and prints a line for
/// each call of an output function. Nothing is written.
///
/// It ends with `Ran` and the totals where all calls were made, `BadScript` at the first line that is no call or whose call is
/// refused, `ReadFault` and `PutFault` only where the host or the sink counted an error, and `NoMemory` where memory ran out before
/// anything was printed. The lines of the calls before stay, at `PutFault` a front of them.
pub fn drive_file<H: Host, S: Sink>(
    alloc: Global,
    host: &mut H,
    out: &mut S,
    driver: &mut Driver,
    script: &str,
) -> Ending
    ensures ends { let at = told H.files H.rest H.given H.written H.sure H.read_faults H.write_faults in
        let sink = sink_told S.bytes S.faults in
        (w : Driven) → StandsFor w driver.old [] →
        DriveEnds result w script.now (at host.old) (at host.new) (sink out.old) (sink out.new) }
    ensures counts { let sink = sink_told S.bytes S.faults in
        CountsPuts result (sink out.old) (sink out.new) }
    ensures unsure { IfReadFault result (H.sure host.old script.now ≡ false) }
{
    scripts_are_driven();
    if host.open_read(script).is_err() {
        return Ending::ReadFault;
    }
    let mut totals = Totals {
        ticks: 0,
        steps: 0,
        calls: 0,
    };
    match run_script(alloc, driver, host, out, &mut totals) {
        Ok(()) => Ending::Ran(totals),
        Err(ScriptFault::Read) => Ending::ReadFault,
        Err(ScriptFault::Out) => Ending::PutFault,
        Err(ScriptFault::Line(bad)) => Ending::BadScript(ScriptStop::Line(bad)),
        Err(ScriptFault::Call(refused)) => Ending::BadScript(ScriptStop::Call(refused)),
        Err(ScriptFault::Memory) => Ending::NoMemory,
    }
}

ghost use Rattle.std.specs.Prelude.{◌≡◌, false};
ghost use Rattle.std.specs.List.{AllZip};
ghost use Rattle.c_interpreter.specs.States.{tree_of};
ghost use Rattle.tool_runner.specs.Ticks.{IsNarrower};
ghost use Rattle.tool_endings.specs.Told.{told, sink_told};
ghost use Rattle.tool_endings.specs.Endings.{CountsPuts};
ghost use Rattle.tool_endings.specs.Acting.{IsBehindStart, RunEnds};
ghost use Rattle.tool_endings.specs.Completeness.{IfReadFault};

use base_fixed_point::FixType;
use base_host::{Host, Sink};
use c_interpreter::Machine;
use std::alloc::Global;
use tool_endings::Ending;
use tool_runner::{RunFault, run_trace};

/// Runs the rows of the file `trace` through a machine after its start, one tick for each, and prints a line for each tick. The
/// numbers of a row are stored integers of these types, each within the type of its input. Nothing is written.
///
/// It ends with `Ran` and the totals where all rows were run, `BadTrace` at the first line that is no row, `Stuck` where the
/// program is stuck before such a line, `ReadFault` and `PutFault` only where the host or the sink counted an error, and `NoMemory`
/// where memory ran out before anything was printed. The lines of the ticks before stay, at `PutFault` a front of them.
pub fn run_file<H: Host, S: Sink>(
    alloc: Global,
    host: &mut H,
    out: &mut S,
    machine: &mut Machine,
    types: &[FixType],
    trace: &str,
) -> Ending
    requires start { IsBehindStart machine.old }
    requires types { AllZip IsNarrower types.now machine.old.program.inputs }
    ensures ends { let at = told H.files H.rest H.given H.written H.sure H.read_faults H.write_faults in
        let sink = sink_told S.bytes S.faults in
        RunEnds result (tree_of machine.old) types.now trace.now (at host.old) (at host.new)
        (sink out.old) (sink out.new) }
    ensures counts { let sink = sink_told S.bytes S.faults in
        CountsPuts result (sink out.old) (sink out.new) }
    ensures unsure { IfReadFault result (H.sure host.old trace.now ≡ false) }
{
    if host.open_read(trace).is_err() {
        return Ending::ReadFault;
    }
    let ran = run_trace(alloc, machine, types, host, out);
    match ran.ended {
        Ok(()) => Ending::Ran(ran.totals),
        Err(RunFault::Read) => Ending::ReadFault,
        Err(RunFault::Out) => Ending::PutFault,
        Err(RunFault::Trace(bad)) => Ending::BadTrace(bad),
        Err(RunFault::Stuck(at)) => Ending::Stuck(at),
        Err(RunFault::Memory) => Ending::NoMemory,
    }
}

ghost use Rattle.std.specs.List.{AllZip};
ghost use Rattle.c_interpreter.specs.States.{tree_of};
ghost use Rattle.tool_runner.specs.Ticks.{IsNarrower};
ghost use Rattle.tool_endings.specs.Told.{sink_told};
ghost use Rattle.tool_endings.specs.Endings.{CountsPuts};
ghost use Rattle.tool_endings.specs.Acting.{IsBehindStart, RowsEnd};

use base_fixed_point::FixType;
use base_host::Sink;
use c_interpreter::Machine;
use std::alloc::Global;
use tool_endings::Ending;
use tool_runner::{RunFault, run_bytes};

/// Runs the rows of a trace's bytes through a machine after its start, one tick for each, and prints a line for each tick. The
/// numbers of a row are stored integers of these types, each within the type of its input.
///
/// It ends with `Ran` and the totals where all rows were run, `BadTrace` at the first line that is no row, `Stuck` where the
/// program is stuck before such a line, `PutFault` only where the sink counted an error, and `NoMemory` where memory ran out before
/// anything was printed. The lines of the ticks before stay, at `PutFault` a front of them.
pub fn run_rows<S: Sink>(
    alloc: Global,
    out: &mut S,
    machine: &mut Machine,
    types: &[FixType],
    trace: &[u8],
) -> Ending
    requires start { IsBehindStart machine.old }
    requires types { AllZip IsNarrower types.now machine.old.program.inputs }
    ensures ends { let sink = sink_told S.bytes S.faults in
        RowsEnd result (tree_of machine.old) types.now trace.now (sink out.old) (sink out.new) }
    ensures counts { let sink = sink_told S.bytes S.faults in
        CountsPuts result (sink out.old) (sink out.new) }
{
    let ran = run_bytes(alloc, machine, types, trace, out);
    match ran.ended {
        Ok(()) => Ending::Ran(ran.totals),
        // Bytes are there, so that no read can fail.
        Err(RunFault::Read) => Ending::ReadFault,
        Err(RunFault::Out) => Ending::PutFault,
        Err(RunFault::Trace(bad)) => Ending::BadTrace(bad),
        Err(RunFault::Stuck(at)) => Ending::Stuck(at),
        Err(RunFault::Memory) => Ending::NoMemory,
    }
}

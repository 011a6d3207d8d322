// The rows of a trace's bytes through the machine.
ghost use Rattle.std.specs.Prelude.{◌≡◌, ◌≢◌, Err};
ghost use Rattle.std.specs.List.{AllZip};
ghost use Rattle.base_host.specs.Faults.{HasCauseOf};
ghost use Rattle.tool_traces.specs.Rows.{rows_of};
ghost use Rattle.tool_runner.specs.Runs.{no_totals, Ends};
ghost use Rattle.tool_runner.specs.Ticks.{IsNarrower, standing};

use crate::outcome::{Ran, RunFault, Totals};
use crate::run::Run;
use base_fixed_point::FixType;
use base_host::{PutBuffer, Sink};
use c_interpreter::Machine;
use std::alloc::Global;
use tool_stream::walk_text;

/// Runs the rows of a trace's bytes through the machine, one tick for each, and prints one line of outputs for each tick:
/// decimal numbers with a space between each two. Says what was executed, and how it ended.
///
/// `types` are those of the numbers of a row, each within the type of its input.
///
/// # Errors
///
/// `Trace` exactly at the first line that is no row, `Stuck` exactly where the machine is stuck before such a line, `Out` only
/// where the sink counted an error, and `Memory` where memory ran out, before anything was executed or printed. The lines of the
/// ticks before stay, at `Out` a front of them, and the machine and the totals are as the executed ticks left them. A tick that
/// is stuck isn't counted.
pub fn run_bytes<S: Sink>(
    alloc: Global,
    machine: &mut Machine,
    types: &[FixType],
    trace: &[u8],
    sink: &mut S,
) -> Ran
    requires types { AllZip IsNarrower types.now machine.old.program.inputs }
    ensures ran { Ends result.ended (rows_of trace.now types.now)
        (standing machine.old no_totals (S.bytes sink.old))
        (standing machine.new result.totals (S.bytes sink.new)) }
    ensures unread { result.ended ≢ Err RunFault.Read }
    ensures put { HasCauseOf RunFault.Out (S.faults sink.old) (S.faults sink.new) result.ended }
{
    let outputs = machine.checked().outputs() as usize;
    let (Ok(mut waiting), Ok(mut run)) = (PutBuffer::new(alloc), Run::new(alloc, types, outputs))
    else {
        return Ran {
            totals: Totals::none(),
            ended: Err(RunFault::Memory),
        };
    };
    match walk_text(&mut run, machine, trace, &mut waiting, sink) {
        Ok(()) => Ran {
            totals: run.totals,
            ended: Ok(()),
        },
        Err(fault) => Ran {
            totals: run.totals,
            ended: Err(RunFault::of_stream(fault)),
        },
    }
}

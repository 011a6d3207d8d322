// The rows of a trace's file through the machine.
ghost use Rattle.std.specs.Prelude.{◌≡◌, false, OnOk, IsErrOf};
ghost use Rattle.std.specs.Io.KnownBytes.{IsAtEnd};
ghost use Rattle.std.specs.List.{AllZip};
ghost use Rattle.base_host.specs.Faults.{HasCauseOf};
ghost use Rattle.base_host.specs.Reading.{source, OnlyReads};
ghost use Rattle.tool_runner.specs.Runs.{no_totals, RunsOver};
ghost use Rattle.tool_runner.specs.Ticks.{IsNarrower, standing};

use crate::outcome::{Ran, RunFault, Totals};
use crate::run::Run;
use base_fixed_point::FixType;
use base_host::{Host, Sink};
use c_interpreter::Machine;
use std::alloc::Global;
use tool_stream::Stream;

/// Runs the rows of the open file through the machine, as `run_bytes` does, and reads the file piece by piece: the memory that is
/// taken doesn't grow with the file. All lines of the rows that were read are printed before the file is read on.
///
/// # Errors
///
/// Those of `run_bytes`, and `Read`, only where the host counted an error: then the lines of all whole lines among the bytes that
/// were read stay. At `Memory` nothing was read.
pub fn run_trace<H: Host, S: Sink>(
    alloc: Global,
    machine: &mut Machine,
    types: &[FixType],
    host: &mut H,
    sink: &mut S,
) -> Ran
    requires types { AllZip IsNarrower types.now machine.old.program.inputs }
    ensures ran { RunsOver result.ended (source (H.rest host.old) (H.given host.old))
        (source (H.rest host.new) (H.given host.new)) types.now
        (standing machine.old no_totals (S.bytes sink.old))
        (standing machine.new result.totals (S.bytes sink.new)) }
    ensures end { OnOk result.ended (IsAtEnd (H.rest host.new)) }
    ensures untouched { IsErrOf result.ended RunFault.Memory → H.rest host.new ≡ H.rest host.old }
    ensures read { HasCauseOf RunFault.Read (H.read_faults host.old) (H.read_faults host.new)
        result.ended }
    ensures unsure { IsErrOf result.ended RunFault.Read → H.sure_rest host.old ≡ false }
    ensures only_reads { OnlyReads H.files H.written H.write_faults host.old host.new }
    ensures put { HasCauseOf RunFault.Out (S.faults sink.old) (S.faults sink.new) result.ended }
{
    let outputs = machine.checked().outputs() as usize;
    let (Ok(mut stream), Ok(mut run)) = (Stream::new(alloc), Run::new(alloc, types, outputs)) else {
        return Ran {
            totals: Totals::none(),
            ended: Err(RunFault::Memory),
        };
    };
    match stream.walk_file(&mut run, machine, host, sink) {
        Ok(()) => Ran {
            totals: run.totals,
            ended: Ok(()),
        },
        Err(fault) => Ran {
            totals: run.totals,
            ended: Err(RunFault::of_stream(fault)),
        },
    }
}

// The rows of a trace's file through the flows.
ghost use Rattle.std.specs.Prelude.{◌≡◌, false, OnOk, IsErrOf};
ghost use Rattle.std.specs.Io.KnownBytes.{IsAtEnd};
ghost use Rattle.base_host.specs.Faults.{HasCauseOf};
ghost use Rattle.base_host.specs.Reading.{source, OnlyReads};
ghost use Rattle.lustre_syntax.specs.Plain.{file_tree};
ghost use Rattle.tool_flow_runner.specs.Runs.{RunsOver};

use crate::outcome::FlowFault;
use crate::walk::Walk;
use base_host::{Host, Sink};
use lustre_checked::LusChecked;
use lustre_interpreter::Flows;
use std::alloc::Global;
use tool_stream::Stream;

/// Runs the flows of a file over the rows of the open file, one tick for each row, and prints one line of outputs for each tick:
/// decimal numbers with a space between each two. Says how many ticks there were.
///
/// A row has a number from -2147483648 to 4294967295 for each input of the last node. The file is read piece by piece: the memory
/// that is taken doesn't grow with it. All lines of the rows that were read are printed before it is read on.
///
/// # Errors
///
/// `Bad` exactly at the first line that is no row, `Stuck` exactly where a tick is stuck before such a line, `Put` only where the
/// sink counted an error, `Read` only where the host did, and `Memory` where memory ran out, before anything was read or printed.
/// The lines of the ticks before stay, at `Put` a front of them, at `Read` those of all whole lines among the bytes that were read.
pub fn flow_trace<H: Host, S: Sink>(
    alloc: Global,
    file: LusChecked,
    host: &mut H,
    sink: &mut S,
) -> Result<u64, FlowFault>
    ensures ran { RunsOver result (file_tree file)
        (source (H.rest host.old) (H.given host.old)) (source (H.rest host.new) (H.given host.new))
        (S.bytes sink.old) (S.bytes sink.new) }
    ensures end { OnOk result (IsAtEnd (H.rest host.new)) }
    ensures untouched { IsErrOf result FlowFault.Memory → H.rest host.new ≡ H.rest host.old }
    ensures read { HasCauseOf FlowFault.Read (H.read_faults host.old) (H.read_faults host.new)
        result }
    ensures unsure { IsErrOf result FlowFault.Read → H.sure_rest host.old ≡ false }
    ensures only_reads { OnlyReads H.files H.written H.write_faults host.old host.new }
    ensures put { HasCauseOf FlowFault.Put (S.faults sink.old) (S.faults sink.new) result }
{
    let (Ok(mut stream), Ok(mut walk), Ok(mut flows)) = (
        Stream::new(alloc),
        Walk::new(alloc, file.file()),
        Flows::new(alloc, file),
    ) else {
        return Err(FlowFault::Memory);
    };
    match stream.walk_file(&mut walk, &mut flows, host, sink) {
        Ok(()) => Ok(walk.ticks),
        Err(fault) => Err(FlowFault::of_stream(fault)),
    }
}

ghost use Rattle.std.specs.Prelude.{◌≡◌, false};
ghost use Rattle.lustre_syntax.specs.Plain.{file_tree};
ghost use Rattle.tool_endings.specs.Told.{told, sink_told};
ghost use Rattle.tool_endings.specs.Endings.{CountsPuts};
ghost use Rattle.tool_endings.specs.Completeness.{IfReadFault};
ghost use Rattle.tool_flow_steps.specs.FlowParts.{FlowsEnd};

use base_host::{Host, Sink};
use lustre_reader::LusChecked;
use std::alloc::Global;
use tool_endings::Ending;
use tool_flow_runner::{FlowFault, flow_trace};

/// Runs the flows of a file of Lustre over the file `trace`, one tick for each row, and prints a line for each tick. Nothing is
/// written.
///
/// It ends with `Flowed` and the number of ticks where all rows were run, `BadTrace` at the first line that is no row, `FlowStuck`
/// where a tick is stuck before such a line, `ReadFault` and `PutFault` only where the host or the sink counted an error, and
/// `NoMemory` where memory ran out before anything was printed. The lines of the ticks before stay, at `PutFault` a front of them.
pub fn run_flows<H: Host, S: Sink>(
    alloc: Global,
    host: &mut H,
    out: &mut S,
    file: LusChecked,
    trace: &str,
) -> Ending
    ensures ends { let at = told H.files H.rest H.given H.written H.sure H.read_faults H.write_faults in
        let sink = sink_told S.bytes S.faults in
        FlowsEnd result (file_tree file) trace.now (at host.old) (at host.new) (sink out.old)
        (sink out.new) }
    ensures counts { let sink = sink_told S.bytes S.faults in
        CountsPuts result (sink out.old) (sink out.new) }
    ensures unsure { IfReadFault result (H.sure host.old trace.now ≡ false) }
{
    if host.open_read(trace).is_err() {
        return Ending::ReadFault;
    }
    match flow_trace(alloc, file, host, out) {
        Ok(ticks) => Ending::Flowed(ticks),
        Err(FlowFault::Read) => Ending::ReadFault,
        Err(FlowFault::Put) => Ending::PutFault,
        Err(FlowFault::Bad(bad)) => Ending::BadTrace(bad),
        Err(FlowFault::Stuck(at)) => Ending::FlowStuck(at),
        Err(FlowFault::Memory) => Ending::NoMemory,
    }
}

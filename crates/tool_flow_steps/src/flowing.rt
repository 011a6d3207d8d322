ghost use Rattle.std.specs.Prelude.{Some};
ghost use Rattle.tool_words.specs.Words.{Flow};
ghost use Rattle.tool_endings.specs.Told.{told, sink_told};
ghost use Rattle.tool_endings.specs.Endings.{Ends};
ghost use Rattle.tool_endings.specs.Completeness.{IfReadFault, IsUnsureOf};

use crate::reading::read_file;
use crate::tracing::run_flows;
use base_host::{Host, Sink};
use std::alloc::Global;
use tool_endings::Ending;

/// Runs the flows of the file of Lustre `file` over the file `trace`, and prints a line for each tick. Nothing is written.
///
/// It ends with `Flowed` and the number of ticks where all rows were run, `LustreTooLong` beyond 512 MiB, `LustreRefused` with the
/// first error of bytes that are no text of a file of Lustre, `BadTrace` at the first line that is no row, `FlowStuck` where a tick
/// is stuck before such a line, `ReadFault` and `PutFault` only where the host or the sink counted an error, and `NoMemory` where
/// memory ran out before anything was printed. The lines of the ticks before stay, at `PutFault` a front of them.
pub fn flow_file<H: Host, S: Sink>(
    alloc: Global,
    host: &mut H,
    out: &mut S,
    file: &str,
    trace: &str,
) -> Ending
    ensures ends { let at = told H.files H.rest H.given H.written H.sure H.read_faults H.write_faults in
        let sink = sink_told S.bytes S.faults in
        Ends result (Some (Flow file.now trace.now)) (at host.old) (at host.new) (sink out.old)
        (sink out.new) }
    ensures unsure { IfReadFault result (IsUnsureOf H.files H.sure host.old (Flow file.now trace.now)) }
{
    match read_file(alloc, host, file) {
        Ok(checked) => run_flows(alloc, host, out, checked, trace),
        Err(ending) => ending,
    }
}

ghost use Rattle.std.specs.Prelude.{Some};
ghost use Rattle.tool_words.specs.Words.{Exec};
ghost use Rattle.tool_endings.specs.Told.{told, sink_told};
ghost use Rattle.tool_endings.specs.Endings.{Ends};
ghost use Rattle.tool_endings.specs.Completeness.{IfReadFault, IsUnsureOf};

use crate::starting::started;
use crate::tracing::run_file;
use base_host::{Host, ReadAllFault, Sink, read_all};
use std::alloc::Global;
use tool_endings::Ending;

/// The most bytes that a C file has.
const MOST_CODE: usize = 536_870_912;

/// Runs the file `code` over the file `trace`, and prints a line for each tick. The numbers of a row are stored integers of the
/// types that the code's step takes. Nothing is written.
///
/// It ends with `Ran` and the totals where all rows were run, `CodeTooLong` beyond 512 MiB, `CodeRefused` with the first error of
/// code that is no program, `BadTrace` at the first line that is no row, `Stuck` where the program is stuck in its start or before
/// such a line, `ReadFault` and `PutFault` only where the host or the sink counted an error, and `NoMemory` where memory ran out
/// before anything was printed. The lines of the ticks before stay, at `PutFault` a front of them.
pub fn exec_code<H: Host, S: Sink>(
    alloc: Global,
    host: &mut H,
    out: &mut S,
    code: &str,
    trace: &str,
) -> Ending
    ensures ends { let at = told H.files H.rest H.given H.written H.sure H.read_faults H.write_faults in
        let sink = sink_told S.bytes S.faults in
        Ends result (Some (Exec code.now trace.now)) (at host.old) (at host.new) (sink out.old)
        (sink out.new) }
    ensures unsure { IfReadFault result (IsUnsureOf H.files H.sure host.old (Exec code.now trace.now)) }
{
    let bytes = match read_all(alloc, host, code, MOST_CODE) {
        Ok(bytes) => bytes,
        Err(ReadAllFault::Read) => return Ending::ReadFault,
        Err(ReadAllFault::TooLong) => return Ending::CodeTooLong,
        Err(ReadAllFault::Memory) => return Ending::NoMemory,
    };
    let mut machine = match started(alloc, &bytes) {
        Ok(machine) => machine,
        Err(ending) => return ending,
    };
    let Ok(types) = machine.checked().inputs().to_vec(alloc) else {
        return Ending::NoMemory;
    };
    run_file(alloc, host, out, &mut machine, &types, trace)
}

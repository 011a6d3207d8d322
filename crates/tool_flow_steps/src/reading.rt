ghost use Rattle.std.specs.Prelude.{IfErr, IfOk};
ghost use Rattle.lustre_syntax.specs.Plain.{file_tree};
ghost use Rattle.tool_endings.specs.Told.{told};
ghost use Rattle.tool_flow_steps.specs.FlowParts.{ReadsLustreFile, NotRead};

use base_host::{Host, ReadAllFault, read_all};
use lustre_reader::{LusChecked, ReadLusFault, read_lustre};
use std::alloc::Global;
use tool_endings::Ending;

// The most bytes that a file of Lustre has.
const MOST_BYTES: usize = 536_870_912;

/// Reads a file of Lustre. Nothing is written.
///
/// # Errors
///
/// `LustreTooLong` beyond 512 MiB, `LustreRefused` with the first error of bytes that are no text of a file, `ReadFault` only
/// where the host counted an error, and `NoMemory` where memory ran out.
pub fn read_file<H: Host>(alloc: Global, host: &mut H, file: &str) -> Result<LusChecked, Ending>
    ensures read { let at = told H.files H.rest H.given H.written H.sure H.read_faults H.write_faults in
        IfOk result (λ checked. ReadsLustreFile (file_tree checked) file.now (at host.old)
        (at host.new)) }
    ensures ended { let at = told H.files H.rest H.given H.written H.sure H.read_faults H.write_faults in
        IfErr result (λ ending. NotRead ending file.now (at host.old) (at host.new)) }
{
    let bytes = match read_all(alloc, host, file, MOST_BYTES) {
        Ok(bytes) => bytes,
        Err(ReadAllFault::Read) => return Err(Ending::ReadFault),
        Err(ReadAllFault::TooLong) => return Err(Ending::LustreTooLong),
        Err(ReadAllFault::Memory) => return Err(Ending::NoMemory),
    };
    match read_lustre(alloc, &bytes) {
        Ok(checked) => Ok(checked),
        Err(ReadLusFault::Refused(fault)) => Err(Ending::LustreRefused(fault)),
        Err(ReadLusFault::Memory) => Err(Ending::NoMemory),
    }
}

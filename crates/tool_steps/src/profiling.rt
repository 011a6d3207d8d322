ghost use Rattle.std.specs.Prelude.{◌≡◌, false};
ghost use Rattle.tool_endings.specs.Told.{told};
ghost use Rattle.tool_endings.specs.EndingsOfModels.{EndsProfiling};
ghost use Rattle.tool_endings.specs.Completeness.{IfReadFault};

use crate::accepting::MOST_BYTES;
use base_host::{Host, ReadAllFault, read_all};
use base_refusals::Refusal;
use diagram_verdict::ModelFault;
use modules_interfaces::report_of;
use std::alloc::Global;
use tool_endings::Ending;

/// Makes the report on the systems of the file `model`. Nothing is written.
///
/// It ends with `Reported` and the text where the rules accept the file, `Refused` with its first refusal, too many bytes among
/// the refusals, `ReadFault` only where the host counted an error, and `NoMemory` where memory ran out.
pub fn profile_model<H: Host>(alloc: Global, host: &mut H, model: &str) -> Ending
    ensures ends { let at = told H.files H.rest H.given H.written H.sure H.read_faults H.write_faults in
        EndsProfiling result model.now (at host.old) (at host.new) }
    ensures unsure { IfReadFault result (H.sure host.old model.now ≡ false) }
{
    let bytes = match read_all(alloc, host, model, MOST_BYTES) {
        Ok(bytes) => bytes,
        Err(ReadAllFault::Read) => return Ending::ReadFault,
        Err(ReadAllFault::TooLong) => return Ending::Refused(Refusal::TooLong),
        Err(ReadAllFault::Memory) => return Ending::NoMemory,
    };
    match report_of(alloc, &bytes) {
        Ok(report) => Ending::Reported(report),
        Err(ModelFault::Refused(refusal)) => Ending::Refused(refusal),
        Err(ModelFault::Memory) => Ending::NoMemory,
    }
}

ghost use Rattle.std.specs.Prelude.{◌≡◌, false};
ghost use Rattle.tool_endings.specs.Told.{told};
ghost use Rattle.tool_endings.specs.EndingsOfLustre.{EndsLustre};
ghost use Rattle.tool_endings.specs.Completeness.{IfReadFault};

use base_host::{Failed, Host, write_all};
use lustre_emitter::LusOfFault;
use lustre_text::lustre_text;
use std::alloc::Global;
use tool_endings::Ending;
use tool_steps::accept_file;

/// Writes the file `model` as Lustre into the file `file`.
///
/// It ends with `Noded` and the number of nodes where the file was written whole, `Refused` with the first refusal of the model,
/// too many bytes among the refusals, `LustreLong` with the first delay that is too long for a file of Lustre, `ReadFault` and
/// `WriteFault` only where the host counted an error, at `WriteFault` with a front of the file or none, and `NoMemory` where
/// memory ran out. A model that is refused or has a long delay isn't written.
pub fn make_lustre<H: Host>(alloc: Global, host: &mut H, model: &str, file: &str) -> Ending
    ensures ends { let at = told H.files H.rest H.given H.written H.sure H.read_faults H.write_faults in
        EndsLustre result model.now file.now (at host.old) (at host.new) }
    ensures unsure { IfReadFault result (H.sure host.old model.now ≡ false) }
{
    let accepted = match accept_file(alloc, host, model) {
        Ok(accepted) => accepted,
        Err(ending) => return ending,
    };
    let (bytes, nodes) = match lustre_text(alloc, &accepted.resolved) {
        Ok(made) => made,
        Err(LusOfFault::LongDelay(place)) => return Ending::LustreLong(place),
        Err(LusOfFault::Memory) => return Ending::NoMemory,
    };
    match write_all(host, file, &bytes) {
        Ok(()) => Ending::Noded(nodes),
        Err(Failed) => Ending::WriteFault,
    }
}

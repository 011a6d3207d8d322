ghost use Rattle.std.specs.Prelude.{IfErr, IfOk};
ghost use Rattle.diagram_meaning.specs.ResolvedTable.{table_of_tree};
ghost use Rattle.tool_endings.specs.Told.{told};
ghost use Rattle.tool_endings.specs.Acting.{AcceptsFile, IsAcceptedText, NotAccepted};
ghost use Rattle.diagram_verdict.specs.Faults.{IsFaultOf};

use base_host::{Host, ReadAllFault, read_all};
use base_refusals::Refusal;
use diagram_meaning::Resolved;
use diagram_verdict::{ModelFault, accept_sections, read_file};
use emit_notes::{Labels, labels_of};
use std::alloc::Global;
use tool_endings::Ending;

/// The most bytes that a model has.
pub const MOST_BYTES: usize = 16_777_216;

/// A model that the rules accept, and what its text says of its blocks.
#[derive(Drop)]
pub struct AcceptedFile {
    /// The model.
    pub resolved: Resolved,
    /// What the text says of its blocks.
    pub labels: Labels,
}

/// The model of a text that the rules accept, and what the text says of its blocks.
fn accept_text(alloc: Global, text: &[u8]) -> Result<AcceptedFile, ModelFault>
    ensures accepted { IfOk result (λ f. IsAcceptedText (table_of_tree f.resolved) f.labels text.now) }
    ensures refused { IfErr result (IsFaultOf text.now) }
{
    let file = read_file(alloc, text)?;
    let resolved = accept_sections(alloc, &file)?;
    let labels = labels_of(alloc, &file)?;
    Ok(AcceptedFile { resolved, labels })
}

/// Reads the file `model`, which the rules accept. Nothing is written.
///
/// # Errors
///
/// `Refused` with the first refusal of the file's bytes, too many of them among the refusals; `ReadFault` only where the host
/// counted an error; and `NoMemory` where memory ran out.
pub fn accept_file<H: Host>(
    alloc: Global,
    host: &mut H,
    model: &str,
) -> Result<AcceptedFile, Ending>
    ensures accepted { let at = told H.files H.rest H.given H.written H.sure H.read_faults H.write_faults in
        IfOk result (λ f. AcceptsFile (table_of_tree f.resolved) f.labels model.now (at host.old)
        (at host.new)) }
    ensures ended { let at = told H.files H.rest H.given H.written H.sure H.read_faults H.write_faults in
        IfErr result (λ ending. NotAccepted ending model.now (at host.old) (at host.new)) }
{
    let bytes = match read_all(alloc, host, model, MOST_BYTES) {
        Ok(bytes) => bytes,
        Err(ReadAllFault::Read) => return Err(Ending::ReadFault),
        Err(ReadAllFault::TooLong) => return Err(Ending::Refused(Refusal::TooLong)),
        Err(ReadAllFault::Memory) => return Err(Ending::NoMemory),
    };
    match accept_text(alloc, &bytes) {
        Ok(accepted) => Ok(accepted),
        Err(ModelFault::Refused(refusal)) => Err(Ending::Refused(refusal)),
        Err(ModelFault::Memory) => Err(Ending::NoMemory),
    }
}

ghost use Rattle.std.specs.Prelude.{IfErr, IfOk};
ghost use Rattle.mdl_tree.specs.Values.{section_tree};
ghost use Rattle.diagram_verdict.specs.Faults.{IsFaultOf};
ghost use Rattle.diagram_verdict.specs.Files.{IsFile};

use crate::fault::ModelFault;
use base_refusals::Refusal;
use mdl_reader::read_mdl;
use mdl_tree::Section;
use std::alloc::Global;

/// The most bytes that a model's file may have.
const FILE_LIMIT: usize = 16_777_216;

/// The sections of a model's text. `Refused` comes exactly where the file is too long, or the text is refused.
pub fn read_file(alloc: Global, bytes: &[u8]) -> Result<Section, ModelFault>
    ensures file { IfOk result (λ file. IsFile bytes.now (section_tree file).items) }
    ensures fault { IfErr result (IsFaultOf bytes.now) }
{
    if bytes.len() > FILE_LIMIT {
        return Err(ModelFault::Refused(Refusal::TooLong));
    }
    Ok(read_mdl(alloc, bytes)?)
}

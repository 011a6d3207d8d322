ghost use Rattle.std.specs.Prelude.{◌≡◌, IfErr, IfOk, None, OnOk};
ghost use Rattle.mdl_tree.specs.Values.{section_tree};
ghost use Rattle.mdl_rows.specs.Refusals.{tree_refusal};
ghost use Rattle.diagram_meaning.specs.ResolvedTable.{table_of_tree};
ghost use Rattle.diagram_verdict.specs.Faults.{IsFaultOf};
ghost use Rattle.diagram_verdict.specs.Files.{OfTexts};
ghost use Rattle.diagram_verdict.specs.Verdict.{Accepted, HasVerdict};
ghost use Rattle.diagram_verdict.specs.TreeVerdict.{HasTreeVerdict, IsTreeFaultOf};

use crate::delays::refusal_of_delays;
use crate::fault::ModelFault;
use crate::loops::refusal_of_loop;
use crate::read::read_file;
use crate::resolve::resolve_model;
use diagram_meaning::Resolved;
use mdl_tree::Section;
use std::alloc::Global;

/// The model of a tree, which may be that of no text, with the types, operations and sample times of its rows.
///
/// `Refused` comes exactly where the tree is refused, with its first refusal: for what it is, types, sample times, a loop,
/// and then for delays that together remember more than a million samples.
pub fn accept_tree(alloc: Global, file: &Section) -> Result<Resolved, ModelFault>
    ensures accepted { IfOk result (λ r. HasTreeVerdict (section_tree file.now).items
        (Accepted (table_of_tree r))) }
    ensures refused { IfErr result (IsTreeFaultOf (section_tree file.now).items) }
{
    let resolved = resolve_model(alloc, file)?;
    if let Some(refusal) = refusal_of_loop(alloc, &resolved)? {
        return Err(ModelFault::Refused(refusal));
    }
    if let Some(refusal) = refusal_of_delays(&resolved.tree.table().rows) {
        return Err(ModelFault::Refused(refusal));
    }
    Ok(resolved)
}

/// The model of the sections of a text with the types, operations and sample times of its rows.
///
/// `Refused` comes exactly where the texts of these sections are refused, with their first refusal: for what their tree is,
/// types, sample times, a loop, and then for delays that together remember more than a million samples.
pub fn accept_sections(alloc: Global, file: &Section) -> Result<Resolved, ModelFault>
    ensures sound { OnOk result (tree_refusal (section_tree file.now).items ≡ None) }
    ensures accepted { IfOk result (λ r. OfTexts (section_tree file.now).items
        (λ bytes. HasVerdict bytes (Accepted (table_of_tree r)))) }
    ensures refused { IfErr result (λ fault. OfTexts (section_tree file.now).items
        (λ bytes. IsFaultOf bytes fault)) }
{
    accept_tree(alloc, file)
}

/// The model of a file (MDL, as the Simulink reference describes it) with the types, operations and sample times of its
/// rows.
///
/// `Refused` comes exactly where the file is refused, with its first refusal: for its length, its text, and then as
/// `accept_sections` says.
pub fn accept_model(alloc: Global, bytes: &[u8]) -> Result<Resolved, ModelFault>
    ensures accepted { IfOk result (λ r. HasVerdict bytes.now (Accepted (table_of_tree r))) }
    ensures refused { IfErr result (IsFaultOf bytes.now) }
{
    let file = read_file(alloc, bytes)?;
    accept_sections(alloc, &file)
}

ghost use Rattle.std.specs.Prelude.{IfErr, IfOk};
ghost use Rattle.mdl_tree.specs.Values.{section_tree};
ghost use Rattle.diagram_meaning.specs.ResolvedTable.{table_of_tree};
ghost use Rattle.diagram_verdict.specs.TreeVerdict.{IsTreeFaultOf, IsTreeOf};

use crate::fault::ModelFault;
use diagram_meaning::{Resolved, resolve_all};
use diagram_times::infer_times;
use diagram_types::infer_types;
use mdl_table::build;
use mdl_tree::Section;
use std::alloc::Global;

/// The resolved tree of a model's sections. `Refused` comes exactly where the tree, a type or a sample time is refused.
pub(crate) fn resolve_model(alloc: Global, file: &Section) -> Result<Resolved, ModelFault>
    ensures model { IfOk result
        (λ r. IsTreeOf (section_tree file.now).items (table_of_tree r)) }
    ensures fault { IfErr result (IsTreeFaultOf (section_tree file.now).items) }
{
    let tree = build(alloc, file)?;
    let types = infer_types(alloc, &tree)?;
    let times = infer_times(alloc, &tree)?;
    Ok(resolve_all(alloc, tree, types, times)?)
}

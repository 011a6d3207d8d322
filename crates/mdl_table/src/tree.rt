ghost use Rattle.std.specs.Prelude.{◌≡◌, IfErr, IfOk, None, Ok, OnOk};
ghost use Rattle.diagram_meaning.specs.Nested.{AreSystemsOf, system_of};
ghost use Rattle.mdl_tree.specs.Values.{section_tree};
ghost use Rattle.mdl_systems.specs.Models.{model_of};
ghost use Rattle.mdl_systems.specs.Reading.{IsFaultBy, model_seen};
ghost use Rattle.mdl_rows.specs.Refusals.{tree_refusal};
ghost use Rattle.mdl_table.specs.Steps.{IsFixedStep};
ghost use Rattle.mdl_table.specs.Tables.{IsRootOf, TableOf};

use crate::laws::tree_table_is_well_formed;
use crate::parts::{ModelParts, parts_of};
use diagram_meaning::{BuildFault, Tree};
use mdl_systems::{ModelSections, find_model};
use mdl_tree::Section;
use std::alloc::Global;

/// The model of a file's sections, with its System.
fn model_in<'a>(alloc: Global, file: &'a Section) -> Result<ModelSections<'a>, BuildFault>
    ensures model { IfOk result (λ m. model_of (section_tree file.now).items ≡ Ok (model_seen m)) }
    ensures fault { IfErr result (IsFaultBy (tree_refusal (section_tree file.now).items)) }
{
    find_model(alloc, file)
}

/// The parts of the tree of a file, whose model this is.
fn parts_in(alloc: Global, file: &Section, found: ModelSections) -> Result<ModelParts, BuildFault>
    requires { model_of (section_tree file.now).items ≡ Ok (model_seen found) }
    ensures accepted { OnOk result (tree_refusal (section_tree file.now).items ≡ None) }
    ensures table { IfOk result (λ m. TableOf (section_tree file.now).items m.table) }
    ensures step { IfOk result (λ m. IsFixedStep (section_tree file.now).items m.table.fixed_step) }
    ensures root { IfOk result
        (λ m. IsRootOf (section_tree file.now).items (record { table = m.table; root = m.root })) }
    ensures systems { IfOk result (λ m. AreSystemsOf m.table.rows (system_of m.root)) }
    ensures fault { IfErr result (IsFaultBy (tree_refusal (section_tree file.now).items)) }
{
    parts_of(alloc, found.model, found.system)
}

/// The tree of a model file's sections: its table, and its nested subsystems.
///
/// Fails exactly with the first refusal of the file for what its tree is: from `NoModel` to `FloatType`, in the order of
/// their numbers, and of one number that with the least line.
pub fn build(alloc: Global, file: &Section) -> Result<Tree, BuildFault>
    ensures accepted { OnOk result (tree_refusal (section_tree file.now).items ≡ None) }
    ensures table { IfOk result (λ tree. TableOf (section_tree file.now).items tree.table) }
    ensures step { IfOk result (λ tree. IsFixedStep (section_tree file.now).items tree.table.fixed_step) }
    ensures root { IfOk result (λ tree. IsRootOf (section_tree file.now).items tree) }
    ensures fault { IfErr result (IsFaultBy (tree_refusal (section_tree file.now).items)) }
{
    let found = model_in(alloc, file)?;
    let ModelParts { table, root } = parts_in(alloc, file, found)?;
    tree_table_is_well_formed();
    Ok(Tree::new(table, root))
}

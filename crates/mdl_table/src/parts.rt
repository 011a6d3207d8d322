ghost use Rattle.std.specs.Prelude.{◌≡◌, IfErr, IfOk, None, OnOk};
ghost use Rattle.diagram_meaning.specs.Nested as nested;
ghost use Rattle.mdl_tree.specs.Values.{section_tree};
ghost use Rattle.mdl_params.specs.Defaults.{IsDefaults};
ghost use Rattle.mdl_systems.specs.Reading.{AreBlocksOf, IsFaultBy};
ghost use Rattle.mdl_systems.specs.Refusals.{model_refusal};
ghost use Rattle.mdl_systems.specs.Systems as text;
ghost use Rattle.mdl_rows.specs.Models.{model_with};
ghost use Rattle.mdl_rows.specs.Refusals.{rows_refusal};
ghost use Rattle.mdl_rows.specs.Tables.{AreRowsOf};
ghost use Rattle.mdl_table.specs.Parts.{found_of, model_of, refusal_of, refusal_with, root_of};
ghost use Rattle.mdl_table.specs.Tables.{IsTableOf};

use crate::step::step_of_model;
use crate::systems::subsystem_of;
use base_core::Memory;
use diagram_meaning::{BuildFault, Row, Subsystem, Table};
use mdl_params::Defaults;
use mdl_rows::rows_of;
use mdl_systems::{
    PlacedBlock, ReadModel, SystemText, children_are_by_subsystems, outlines_are_numbered,
    own_blocks_are_by_owner, owners_are_before, read_model, reading_is_by_defaults,
};
use mdl_tree::Section;
use std::alloc::Global;

/// The rows of a model, and the system of its root.
#[derive(Drop)]
pub(crate) struct ModelRows {
    pub rows: Vec<Row>,
    pub root: Subsystem,
}

/// The table of a model, and the system of its root.
#[derive(Drop)]
pub(crate) struct ModelParts {
    pub table: Table,
    pub root: Subsystem,
}

/// The rows of a model with these defaults and this System, whose blocks these are.
fn rows_by(
    alloc: Global,
    defaults: &Defaults,
    system: &Section,
    blocks: &[PlacedBlock],
) -> Result<Vec<Row>, BuildFault>
    requires accepted { model_refusal defaults.now (section_tree system.now) ≡ None }
    requires blocks { AreBlocksOf defaults.now (section_tree system.now) blocks.now }
    ensures accepted { OnOk result (rows_refusal (model_with defaults.now (section_tree system.now))
        ≡ None) }
    ensures rows { IfOk result (λ v. AreRowsOf (model_with defaults.now (section_tree system.now)) v.items) }
    ensures fault { IfErr result
        (IsFaultBy (rows_refusal (model_with defaults.now (section_tree system.now)))) }
{
    outlines_are_numbered();
    owners_are_before();
    rows_of(alloc, system, blocks)
}

/// The system of the root, whose text this is, of a model with these defaults and this System.
fn root_by(
    alloc: Global,
    defaults: &Defaults,
    system: &Section,
    rows: &[Row],
    root: &SystemText,
) -> Result<Subsystem, Memory>
    requires accepted { model_refusal defaults.now (section_tree system.now) ≡ None }
    requires rows { AreRowsOf (model_with defaults.now (section_tree system.now)) rows.now }
    requires root { text.system_of root.now ≡ text.tree_of_model (section_tree system.now) }
    ensures root { IfOk result (λ s. nested.system_of s ≡ root_of rows.now system.now) }
    ensures systems { IfOk result (λ s. nested.AreSystemsOf rows.now (nested.system_of s)) }
{
    outlines_are_numbered();
    own_blocks_are_by_owner();
    children_are_by_subsystems();
    subsystem_of(alloc, rows, root)
}

/// The rows of a model with these defaults and this System, and the system of its root.
fn model_rows(alloc: Global, defaults: &Defaults, system: &Section) -> Result<ModelRows, BuildFault>
    ensures accepted { OnOk result (refusal_with defaults.now (section_tree system.now) ≡ None) }
    ensures rows { IfOk result
        (λ m. AreRowsOf (model_with defaults.now (section_tree system.now)) m.rows.items) }
    ensures root { IfOk result (λ m. nested.system_of m.root ≡ root_of m.rows.items system.now) }
    ensures systems { IfOk result (λ m. nested.AreSystemsOf m.rows.items (nested.system_of m.root)) }
    ensures fault { IfErr result (IsFaultBy (refusal_with defaults.now (section_tree system.now))) }
{
    let ReadModel { blocks, root } = read_model(alloc, defaults, system)?;
    let rows = rows_by(alloc, defaults, system, blocks.as_slice())?;
    let root = root_by(alloc, defaults, system, rows.as_slice(), &root)?;
    Ok(ModelRows { rows, root })
}

/// The rows of a model with this System, and the system of its root, by defaults that give what the model's do.
fn rows_with(
    alloc: Global,
    defaults: &Defaults,
    model: &Section,
    system: &Section,
) -> Result<ModelRows, BuildFault>
    requires { IsDefaults defaults.now (section_tree model.now).items }
    ensures accepted { OnOk result (refusal_of model.now system.now ≡ None) }
    ensures rows { IfOk result (λ m. AreRowsOf (model_of model.now system.now) m.rows.items) }
    ensures root { IfOk result (λ m. nested.system_of m.root ≡ root_of m.rows.items system.now) }
    ensures systems { IfOk result (λ m. nested.AreSystemsOf m.rows.items (nested.system_of m.root)) }
    ensures fault { IfErr result (IsFaultBy (refusal_of model.now system.now)) }
{
    reading_is_by_defaults();
    model_rows(alloc, defaults, system)
}

/// The rows of a model with this System, and the system of its root.
fn rows_of_model(alloc: Global, model: &Section, system: &Section) -> Result<ModelRows, BuildFault>
    ensures accepted { OnOk result (refusal_of model.now system.now ≡ None) }
    ensures rows { IfOk result (λ m. AreRowsOf (model_of model.now system.now) m.rows.items) }
    ensures root { IfOk result (λ m. nested.system_of m.root ≡ root_of m.rows.items system.now) }
    ensures systems { IfOk result (λ m. nested.AreSystemsOf m.rows.items (nested.system_of m.root)) }
    ensures fault { IfErr result (IsFaultBy (refusal_of model.now system.now)) }
{
    let defaults = Defaults::new(alloc, model)?;
    rows_with(alloc, &defaults, model, system)
}

/// The table of a model with this System, and the system of its root.
pub(crate) fn parts_of(
    alloc: Global,
    model: &Section,
    system: &Section,
) -> Result<ModelParts, BuildFault>
    ensures accepted { OnOk result (refusal_of model.now system.now ≡ None) }
    ensures table { IfOk result (λ m. IsTableOf (found_of model.now system.now) m.table) }
    ensures root { IfOk result (λ m. nested.system_of m.root ≡ root_of m.table.rows system.now) }
    ensures systems { IfOk result (λ m. nested.AreSystemsOf m.table.rows (nested.system_of m.root)) }
    ensures fault { IfErr result (IsFaultBy (refusal_of model.now system.now)) }
{
    let ModelRows { rows, root } = rows_of_model(alloc, model, system)?;
    let table = Table {
        rows,
        fixed_step: step_of_model(model),
    };
    Ok(ModelParts { table, root })
}

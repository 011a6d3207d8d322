ghost use Rattle.std.specs.Prelude.{◌≡◌, IfOk, None, Ok, filter_map, map};
ghost use Rattle.mdl_tree.specs.Values.{section_tree};
ghost use Rattle.mdl_params.specs.Defaults.{IsDefaults};
ghost use Rattle.mdl_systems.specs.Models as models;
ghost use Rattle.mdl_systems.specs.Reading.{model_seen};
ghost use Rattle.mdl_systems.specs.Refusals.{model_refusal};
ghost use Rattle.mdl_rows.specs.Models.{model_with};
ghost use Rattle.mdl_rows.specs.Refusals.{found_refusal, tree_refusal};
ghost use Rattle.diagram_verdict.specs.Files.{OfTexts};
ghost use Rattle.emit_notes.specs.Labels.{AreLabelsOf, label_of, model_labels};
ghost use Rattle.emit_notes.specs.Sections.{all_seen, label_said, port_said, section_seen};

use crate::labels::{Label, Labels};
use crate::sections::{PlacedSection, sections_of};
use base_core::{Memory, ParamName, Text};
use diagram_meaning::BuildFault;
use mdl_blocks::number_up_to;
use mdl_params::{BlockType, Defaults};
use mdl_systems::{ModelSections, find_model, reading_is_by_defaults};
use mdl_tree::Section;
use std::alloc::Global;

/// The port that a block with this section says.
fn port_of(defaults: &Defaults, section: &Section, type_name: &[u8]) -> Option<u32>
    ensures { result ≡ port_said defaults.now (section_tree section.now) type_name.now }
{
    number_up_to(
        u32::MAX,
        defaults.found(section, type_name, ParamName::Port)?,
    )
}

/// The label of a block, if its section says its type and its name.
fn label_in(
    alloc: Global,
    defaults: &Defaults,
    placed: &PlacedSection,
) -> Result<Option<Label>, Memory>
    ensures { IfOk result (λ label. label ≡ label_said defaults.now (section_seen placed.now)) }
{
    let section = placed.section;
    let Some(type_text) = section.param(b"BlockType") else {
        return Ok(None);
    };
    let type_name = type_text.bytes();
    let Some(block_type) = BlockType::of(type_name) else {
        return Ok(None);
    };
    let Some(name) = defaults.found(section, type_name, ParamName::Name) else {
        return Ok(None);
    };
    let inport = match block_type {
        BlockType::Inport => port_of(defaults, section, type_name),
        _ => None,
    };
    let outport = match block_type {
        BlockType::Outport => port_of(defaults, section, type_name),
        _ => None,
    };
    Ok(Some(Label {
        block_type,
        inport,
        outport,
        name: Text::copy_of(alloc, name)?,
        line: section.line,
        owner: placed.owner,
    }))
}

/// The labels of blocks whose sections say their types and names.
fn labels_from(
    alloc: Global,
    defaults: &Defaults,
    sections: &[PlacedSection],
) -> Result<Vec<Label>, Memory>
    ensures { IfOk result (λ v. v.items ≡ filter_map (label_said defaults.now) (all_seen sections.now)) }
{
    let mut labels = Vec::with_capacity(alloc, sections.len())?;
    for placed in sections {
        if let Some(label) = label_in(alloc, defaults, placed)? {
            labels.push(label)?;
        }
    }
    Ok(labels)
}

/// The labels of a model with this System, which isn't refused by these defaults.
fn labels_by(alloc: Global, defaults: &Defaults, system: &Section) -> Result<Vec<Label>, Memory>
    requires { model_refusal defaults.now (section_tree system.now) ≡ None }
    ensures { IfOk result (λ v. v.items
        ≡ map label_of (model_with defaults.now (section_tree system.now)).blocks) }
{
    let sections = sections_of(alloc, system)?;
    labels_from(alloc, defaults, sections.as_slice())
}

/// The labels of a model that isn't refused, by defaults that give what its own do.
fn labels_with(
    alloc: Global,
    defaults: &Defaults,
    found: ModelSections,
) -> Result<Vec<Label>, Memory>
    requires defaults { IsDefaults defaults.now (section_tree found.model.now).items }
    requires accepted { found_refusal (model_seen found) ≡ None }
    ensures { IfOk result (λ v. v.items ≡ model_labels (model_seen found.entry)) }
{
    reading_is_by_defaults();
    labels_by(alloc, defaults, found.system)
}

/// The model of a file that isn't refused.
fn model_in<'a>(alloc: Global, file: &'a Section) -> Result<ModelSections<'a>, Memory>
    requires { tree_refusal (section_tree file.now).items ≡ None }
    ensures model { IfOk result (λ m. models.model_of (section_tree file.now).items ≡ Ok (model_seen m)) }
    ensures accepted { IfOk result (λ m. found_refusal (model_seen m) ≡ None) }
{
    match find_model(alloc, file) {
        Ok(found) => Ok(found),
        Err(BuildFault::Memory) => Err(Memory),
        Err(BuildFault::Refused(_)) => unreachable!(),
    }
}

/// What the sections of an accepted text say of its blocks.
///
/// # Errors
///
/// Only where memory runs out.
pub fn labels_of(alloc: Global, file: &Section) -> Result<Labels, Memory>
    requires { tree_refusal (section_tree file.now).items ≡ None }
    ensures { IfOk result (λ labels. OfTexts (section_tree file.now).items
        (λ bytes. AreLabelsOf bytes labels)) }
{
    let found = model_in(alloc, file)?;
    let defaults = Defaults::new(alloc, found.model)?;
    let rows = labels_with(alloc, &defaults, found)?;
    Ok(Labels { rows })
}

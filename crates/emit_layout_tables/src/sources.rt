ghost use Rattle.std.specs.Prelude.{◌≡◌, ◌++◌, ◌≤◌, IfOk, OnOk, All, filter, flat_map, length, map};
ghost use Rattle.std.specs.List.{enumerate_from};
ghost use Rattle.diagram_blocks.specs.Meaning.{has_value as has_value_of_kind};
ghost use Rattle.modules_profile.specs.LawfulLocals.{IsChild};
ghost use Rattle.emit_system_spec.specs.Sources as sources;

use base_core::Memory;
use base_fixed_point::FixType;
use c_syntax::Leaf;
use emit_layout::{Fields, Sources};
use emit_system_spec::Source;
use modules_profile::{ChildUse, LocalRow};
use std::alloc::Global;

/// The sources of a system with these fields, found in time linear in its rows and its children's outputs.
pub(crate) fn sources_of(alloc: Global, fields: &Fields<'_>) -> Result<Sources, Memory>
    ensures { IfOk result (λ s. s ≡ sources.sources fields.now.local) }
{
    fields.is_emittable();
    let local = fields.local();
    let mut list = Vec::new(alloc);
    push_children(fields, local.children.as_slice(), &mut list)?;
    push_values(fields, local.rows.as_slice(), &mut list)?;
    Sources::new(alloc, list)
}

// Adds the outputs of each child.
fn push_children(
    fields: &Fields<'_>,
    children: &[ChildUse],
    list: &mut Vec<Source>,
) -> Result<(), Memory>
    requires same { children.now ≡ fields.now.local.children }
    requires children { All IsChild children.now }
    ensures { OnOk result (list.new.items
        ≡ list.old.items ++ flat_map (sources.child_sources fields.now.local)
        (enumerate_from 0 children.now)) }
{
    for (place, child) in children.iter().enumerate() {
        push_outputs(fields.child(place), child.header.outputs.as_slice(), list)?;
    }
    Ok(())
}

// Adds these outputs of the child in a field.
fn push_outputs(
    field: u32,
    outputs: &[(u32, FixType)],
    list: &mut Vec<Source>,
) -> Result<(), Memory>
    requires { length outputs.now ≤ 32 }
    ensures { OnOk result (list.new.items
        ≡ list.old.items ++ map (sources.output_source field) (enumerate_from 0 outputs.now)) }
{
    for (k, (row, number)) in outputs.iter().enumerate() {
        list.push(Source {
            row: *row,
            leaf: Leaf::Child(field, k as u32),
            number: *number,
        })?;
    }
    Ok(())
}

// Adds the values of these rows.
fn push_values(fields: &Fields<'_>, rows: &[LocalRow], list: &mut Vec<Source>) -> Result<(), Memory>
    ensures { OnOk result (list.new.items ≡ list.old.items ++ map (sources.value_source fields.now.local)
        (filter (λ r. has_value_of_kind r.kind) rows.now)) }
{
    for row in rows {
        if row.kind.has_value() {
            list.push(value_source(fields, row))?;
        }
    }
    Ok(())
}

fn value_source(fields: &Fields<'_>, row: &LocalRow) -> Source
    ensures { result ≡ sources.value_source fields.now.local row.now }
{
    Source {
        row: row.row,
        leaf: Leaf::Own(fields.value(row.row)),
        number: row.out,
    }
}

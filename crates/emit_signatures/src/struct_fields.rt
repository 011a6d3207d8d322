ghost use Rattle.std.specs.Prelude.{◌≡◌, ◌++◌, ◌<◌, ◌^◌, IfOk, OnOk, filter, flat_map, length, map};
ghost use Rattle.std.specs.List.{enumerate_from};
ghost use Rattle.diagram_blocks.specs.Meaning.{has_value as has_value_of_kind};
ghost use Rattle.modules_profile.specs.Systems.{system_name as name_of_system};
ghost use Rattle.c_syntax.specs.PlainField.{field_tree, field_trees};
ghost use Rattle.emit_shape.specs.Delays.{is_single as is_single_op, is_line as is_line_op};
ghost use Rattle.emit_shape.specs.Slots as slots;
ghost use Rattle.emit_system_spec.specs.Fields.{code_slots, counter_slot};
ghost use Rattle.emit_signatures.specs.StructFields.{filled, trigger_slots};

use base_core::{Control, Memory, Text};
use c_syntax::{CType, Field, FieldKind, StructDef};
use emit_layout::Layout;
use emit_row_facts::{
    container, counter_name, is_line, is_single, is_triggered, memory_name, named, place_name,
    system_name, taken_name, value_name,
};
use modules_profile::{ChildUse, Local, LocalRow};
use std::alloc::Global;

/// The struct of the system of a layout.
///
/// Fails only when memory runs out.
pub fn structure(alloc: Global, layout: &Layout<'_>) -> Result<StructDef, Memory>
    ensures { IfOk result (λ s. s
        ≡ record {
          name = name_of_system layout.now.local.row;
          fields = map slots.slot_field (code_slots layout.now.local layout.now.schedule);
        }) }
{
    layout.is_emittable();
    let system = layout.local();
    let mut list = own_fields(alloc, system)?;
    push_counters(alloc, layout.shared_groups(), &mut list)?;
    push_filler(alloc, &mut list)?;
    Ok(StructDef {
        name: system_name(alloc, system.row)?,
        fields: list,
    })
}

// The fields but the counters.
fn own_fields(alloc: Global, local: &Local) -> Result<Vec<Field>, Memory>
    requires { length local.now.children < 2 ^ 32 }
    ensures { IfOk result (λ v. field_trees v.items
        ≡ map slots.slot_field (slots.own_slots local.now)) }
{
    let rows = local.rows.as_slice();
    let mut list = Vec::new(alloc);
    push_values(alloc, rows, &mut list)?;
    push_singles(alloc, rows, &mut list)?;
    push_lines(alloc, rows, &mut list)?;
    push_trigger(alloc, local.control, &mut list)?;
    push_children(alloc, local.children.as_slice(), &mut list)?;
    Ok(list)
}

fn number(name: Text, of: CType) -> Field
    ensures { field_tree result ≡ record { name = name; kind = FieldKind.Number of } }
{
    Field {
        name,
        kind: FieldKind::Number(of),
    }
}

// Adds a field for the value of each row that has one.
fn push_values(alloc: Global, rows: &[LocalRow], list: &mut Vec<Field>) -> Result<(), Memory>
    ensures { OnOk result (field_trees list.new.items ≡ field_trees list.old.items
        ++ map (λ r. slots.slot_field (slots.value r))
        (filter (λ r. has_value_of_kind r.kind) rows.now)) }
{
    for row in rows {
        if row.kind.has_value() {
            list.push(number(value_name(alloc, row.row)?, container(row.out)))?;
        }
    }
    Ok(())
}

// Adds a field for what each row remembers that remembers one sample.
fn push_singles(alloc: Global, rows: &[LocalRow], list: &mut Vec<Field>) -> Result<(), Memory>
    ensures { OnOk result (field_trees list.new.items ≡ field_trees list.old.items
        ++ map (λ r. slots.slot_field (slots.memory r))
        (filter (λ r. is_single_op r.op) rows.now)) }
{
    for row in rows {
        if is_single(&row.op) {
            list.push(number(memory_name(alloc, row.row)?, container(row.out)))?;
        }
    }
    Ok(())
}

// Adds the three fields of each ring.
fn push_lines(alloc: Global, rows: &[LocalRow], list: &mut Vec<Field>) -> Result<(), Memory>
    ensures { OnOk result (field_trees list.new.items ≡ field_trees list.old.items
        ++ flat_map (λ r. map slots.slot_field (slots.ring_slots r))
        (filter (λ r. is_line_op r.op) rows.now)) }
{
    for row in rows {
        if is_line(&row.op) {
            push_ring(alloc, row, list)?;
        }
    }
    Ok(())
}

// Adds the items, the place and the count of a ring.
fn push_ring(alloc: Global, row: &LocalRow, list: &mut Vec<Field>) -> Result<(), Memory>
    ensures { OnOk result (field_trees list.new.items ≡ field_trees list.old.items
        ++ map slots.slot_field (slots.ring_slots row.now)) }
{
    list.push(Field {
        name: memory_name(alloc, row.row)?,
        kind: FieldKind::Array(container(row.out), row.op.delay_length()),
    })?;
    list.push(number(place_name(alloc, row.row)?, CType::I32))?;
    list.push(number(taken_name(alloc, row.row)?, CType::I32))?;
    Ok(())
}

// Adds the field of what the trigger remembers, where there is a trigger.
fn push_trigger(alloc: Global, control: Control, list: &mut Vec<Field>) -> Result<(), Memory>
    ensures { OnOk result (field_trees list.new.items ≡ field_trees list.old.items
        ++ map slots.slot_field (trigger_slots control)) }
{
    if is_triggered(control) {
        list.push(number(named(alloc, "w")?, CType::I8))?;
    }
    Ok(())
}

// Adds a field where there is none, since no struct is empty.
fn push_filler(alloc: Global, list: &mut Vec<Field>) -> Result<(), Memory>
    ensures { OnOk result (field_trees list.new.items ≡ filled (field_trees list.old.items)) }
{
    if list.is_empty() {
        list.push(number(named(alloc, "none")?, CType::I8))?;
    }
    Ok(())
}

// Adds a field for each child.
fn push_children(alloc: Global, children: &[ChildUse], list: &mut Vec<Field>) -> Result<(), Memory>
    requires { length children.now < 2 ^ 32 }
    ensures { OnOk result (field_trees list.new.items ≡ field_trees list.old.items
        ++ map (λ e. slots.slot_field (slots.instance e.0 e.1)) (enumerate_from 0 children.now)) }
{
    for (place, child) in children.iter().enumerate() {
        list.push(Field {
            name: system_name(alloc, child.header.row)?,
            kind: FieldKind::Struct(place as u32),
        })?;
    }
    Ok(())
}

// Adds the counters of these groups.
fn push_counters(alloc: Global, groups: &[u32], list: &mut Vec<Field>) -> Result<(), Memory>
    ensures { OnOk result (field_trees list.new.items ≡ field_trees list.old.items
        ++ map (λ g. slots.slot_field (counter_slot g)) groups.now) }
{
    for group in groups {
        list.push(number(counter_name(alloc, u64::from(*group) + 1)?, CType::U8))?;
    }
    Ok(())
}

// The names that the equations of a row give.
ghost use Rattle.std.specs.Prelude.{◌≡◌, ◌∷◌, ◌++◌, [], not, OnOk, map};
ghost use Rattle.std.specs.List.{range_with_len};
ghost use Rattle.diagram_blocks.specs.Kinds as kinds;
ghost use Rattle.diagram_blocks.specs.Meaning as meaning;
ghost use Rattle.emit_shape.specs.Names as shape;
ghost use Rattle.lustre_system.specs.Functions.{int_name};
ghost use Rattle.lustre_system.specs.Names as names;
ghost use Rattle.lustre_system.specs.RowEquations.{bool_name, only_if};

use crate::names::Names;
use base_core::Memory;
use diagram_blocks::{Kind, Op};
use emit_row_facts::value_name;
use lustre_expressions::{part_name, sample_name, takes_name};
use std::alloc::Global;

/// The names of the values of rows.
pub(crate) fn push_values(alloc: Global, rows: &[u32], list: &mut Names) -> Result<(), Memory>
    ensures { OnOk result (list.new
        ≡ list.old ++ map (λ o. int_name (shape.value_name o)) rows.now) }
{
    for b in rows {
        list.push_int(value_name(alloc, *b)?)?;
    }
    Ok(())
}

// The names of so many samples of row `b`.
fn push_samples(alloc: Global, b: u32, count: u32, list: &mut Names) -> Result<(), Memory>
    ensures { OnOk result (list.new
        ≡ list.old ++ map (λ k. int_name (names.sample_name b k)) (range_with_len 0 count)) }
{
    for k in 0..count {
        list.push_int(sample_name(alloc, b, k)?)?;
    }
    Ok(())
}

// The names of what so many calls for row `b` give.
fn push_parts(alloc: Global, b: u32, count: u32, list: &mut Names) -> Result<(), Memory>
    ensures { OnOk result (list.new
        ≡ list.old ++ map (λ n. int_name (names.part_name b n)) (range_with_len 1 count)) }
{
    for k in 0..count {
        list.push_int(part_name(alloc, b, k + 1)?)?;
    }
    Ok(())
}

/// Of a delay, the names of whether it takes a sample and of its samples.
pub(crate) fn push_memory(alloc: Global, b: u32, op: &Op, list: &mut Names) -> Result<(), Memory>
    ensures { OnOk result (list.new ≡ list.old ++ only_if (kinds.is_delay op.now)
        (bool_name (names.takes_name b)
        ∷ map (λ k. int_name (names.sample_name b k)) (range_with_len 0 (meaning.delay_length op.now)))) }
{
    if op.is_delay() {
        list.push_bool(takes_name(alloc, b)?)?;
        push_samples(alloc, b, op.delay_length(), list)?;
    }
    Ok(())
}

/// Of a row with a value, the names of what its calls give and of its value, except that of an Outport.
pub(crate) fn push_value(
    alloc: Global,
    b: u32,
    kind: &Kind,
    calls: u32,
    list: &mut Names,
) -> Result<(), Memory>
    ensures { OnOk result (list.new ≡ list.old ++ only_if (meaning.has_value kind.now)
        (map (λ n. int_name (names.part_name b n)) (range_with_len 1 calls)
        ++ only_if (not (kinds.is_outport kind.now)) (int_name (shape.value_name b) ∷ []))) }
{
    if !kind.has_value() {
        return Ok(());
    }
    push_parts(alloc, b, calls, list)?;
    if !kind.is_outport() {
        list.push_int(value_name(alloc, b)?)?;
    }
    Ok(())
}

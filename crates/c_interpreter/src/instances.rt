// The instances of a program's structs by their numbers.
ghost use Rattle.std.specs.Prelude.{◌≡◌, ◌+◌, ◌<◌, ◌≤◌, ◌^◌, IfOk, IfSome, IfNone, length, slice_get, slice_index_or, suc, [], option_and_then};
ghost use Rattle.c_syntax.specs.PlainField.{field_trees};
ghost use Rattle.c_syntax.specs.Tree.{struct_fields};
ghost use Rattle.c_interpreter.specs.Codes.{code_tree};
ghost use Rattle.c_interpreter.specs.Instances.{child_named, number_named};
ghost use Rattle.c_interpreter.specs.Numbering.{kind_count, fields_count, counts_of, all_instances, root_cells, struct_count, slot_number, IsHeld, IsStep, IsPlace, IsNumbering};

use crate::code::Code;
use crate::names::field_named;
use crate::slots::{Slot, number_in, numbers_from, slot_in};
use c_syntax::{Field, FieldKind, StructDef};
use std::alloc::{AllocError, Global};

/// How many instances an instance of the struct at a position is, with those inside it.
pub(crate) fn count_at(counts: &[u32], of: u32) -> u32
    ensures { result ≡ slice_index_or counts.now of 0 }
{
    counts.get(of as usize).copied().unwrap_or(0)
}

fn kind_count(counts: &[u32], kind: FieldKind) -> u32
    ensures { result ≡ kind_count counts.now kind }
{
    match kind {
        FieldKind::Number(_) | FieldKind::Array(_, _) => 0,
        FieldKind::Struct(k) => count_at(counts, k),
    }
}

// How many instances are in fields, if a `u32` can count them.
#[tactic(auto, using(crate::proofs::Numbered::count_more, crate::proofs::Numbered::count_within))]
fn fields_count(counts: &[u32], fields: &[Field]) -> Option<u32>
    ensures counted { IfSome result (λ n. n ≡ fields_count counts.now (field_trees fields.now)) }
    ensures too_many { IfNone result (2 ^ 32 ≤ fields_count counts.now (field_trees fields.now)) }
{
    let mut count: u32 = 0;
    for field in fields {
        count = count.checked_add(kind_count(counts, field.kind))?;
    }
    Some(count)
}

// How many instances an instance of a struct with these fields is, with those inside it, if a `u32` can count them.
fn whole_count(counts: &[u32], fields: &[Field]) -> Option<u32>
    ensures { IfSome result (λ n. n ≡ suc (fields_count counts.now (field_trees fields.now))) }
{
    fields_count(counts, fields)?.checked_add(1)
}

/// How many instances an instance of each struct is, with those inside it. Fails where memory runs out, or where a `u32` can't
/// count them.
pub(crate) fn counts_of(alloc: Global, structs: &[StructDef]) -> Result<Vec<u32>, AllocError>
    ensures { IfOk result (λ v. v.items ≡ counts_of [] structs.now) }
{
    let mut counts = Vec::new(alloc);
    for s in structs {
        let count = whole_count(&counts, &s.fields).ok_or(AllocError)?;
        counts.push(count)?;
    }
    Ok(counts)
}

// The position of the field in which an instance is, by its number counted from those in the first field, and its number in
// that field.
fn field_holding(counts: &[u32], fields: &[Field], number: u32) -> Option<(usize, u32)>
    ensures found { IfSome result (λ r. IsHeld counts.now (field_trees fields.now) r.0 r.1 number) }
    ensures none { IfNone result (fields_count counts.now (field_trees fields.now) ≤ number) }
{
    let mut left = number;
    for i in 0..fields.len() {
        let count = kind_count(counts, fields[i].kind);
        if left < count {
            return Some((i, left));
        }
        left -= count;
    }
    None
}

/// A program with its tables, the struct of its root, and how many instances the root is, with those inside it.
#[derive(Drop)]
pub(crate) struct Numbering<'a> {
    pub(crate) code: Code<'a>,
    pub(crate) counts: &'a [u32],
    pub(crate) root: u32,
    pub(crate) count: u32,
}

/// An instance: its struct, and where its numbers begin among the root's.
#[derive(Clone, Copy, Drop)]
pub(crate) struct Place {
    pub(crate) of: u32,
    pub(crate) at: usize,
}

// The instance in a field of one of a struct, in which the one with a number is, counted from those in the first field, with
// its number in there.
fn step_into(numbering: &Numbering, of: u32, number: u32) -> Option<(Place, u32)>
    requires { IsNumbering numbering.now }
    ensures found { IfSome result (λ r. IsStep (code_tree numbering.now.code) numbering.now.code.layouts
        numbering.now.counts.now of r.0.of r.0.at r.1 number) }
    ensures none { IfNone result (fields_count numbering.now.counts.now
        (struct_fields (code_tree numbering.now.code).structs of) ≤ number) }
{
    let fields = numbering.code.fields_of(of);
    let (position, left) = field_holding(numbering.counts, fields, number)?;
    match slot_in(numbering.code.slots(of), position) {
        Some(Slot::Instance { at, of, .. }) => Some((Place { of, at }, left)),
        Some(Slot::Number { .. }) => unreachable!(),
        Some(Slot::Array { .. }) => unreachable!(),
        None => unreachable!(),
    }
}

/// The place of an instance, if there is one with this number.
pub(crate) fn place_of(numbering: &Numbering, instance: u32) -> Option<Place>
    requires { IsNumbering numbering.now }
    ensures found { IfSome result (λ place. IsPlace (code_tree numbering.now.code)
        numbering.now.code.layouts numbering.now.root instance place.of place.at) }
    ensures none { IfNone result (length (all_instances numbering.now) ≤ instance) }
{
    if instance >= numbering.count {
        return None;
    }
    let mut place = Place {
        of: numbering.root,
        at: 0,
    };
    let mut left = instance;
    while left > 0 {
        let (inner, rest) = step_into(numbering, place.of, left - 1)?;
        place = Place {
            of: inner.of,
            at: place.at + inner.at,
        };
        left = rest;
    }
    Some(place)
}

// How many instances are in the fields before one that holds an instance.
fn count_before(counts: &[u32], fields: &[Field], position: usize) -> Option<u32>
    requires few { fields_count counts.now (field_trees fields.now) < 2 ^ 32 }
    requires inside { position < length fields.now }
    ensures { result ≡ struct_count counts.now (field_trees fields.now) position }
{
    let kind = fields[position].kind;
    match kind {
        FieldKind::Number(_) => None,
        FieldKind::Array(_, _) => None,
        FieldKind::Struct(_) => fields_count(counts, &fields[..position]),
    }
}

/// The number of the instance in the struct field with a name, of an instance.
pub(crate) fn child_of(numbering: &Numbering, instance: u32, name: &[u8]) -> Option<u32>
    requires { IsNumbering numbering.now }
    ensures child { option_and_then (λ j. slice_get (all_instances numbering.now) j) result
        ≡ option_and_then (child_named (code_tree numbering.now.code) name.now)
        (slice_get (all_instances numbering.now) instance) }
    ensures there { IfSome result (λ j. j < length (all_instances numbering.now)) }
{
    let place = place_of(numbering, instance)?;
    let fields = numbering.code.fields_of(place.of);
    let position = field_named(fields, name)?;
    let before = count_before(numbering.counts, fields, position)?;
    Some(instance + 1 + before)
}

fn number_at(numbers: &[i64], slot: Option<Slot>) -> Option<i64>
    ensures { result ≡ slot_number numbers.now slot }
{
    match slot {
        Some(Slot::Number { .. }) => Some(number_in(numbers, slot)),
        _ => None,
    }
}

/// The number in the number field with a name, of an instance among the numbers of the root.
pub(crate) fn number_of(
    numbering: &Numbering,
    numbers: &[i64],
    instance: u32,
    name: &[u8],
) -> Option<i64>
    requires { IsNumbering numbering.now }
    ensures { result ≡ option_and_then
        (number_named (code_tree numbering.now.code) (root_cells numbering.now numbers.now)
        name.now)
        (slice_get (all_instances numbering.now) instance) }
{
    let place = place_of(numbering, instance)?;
    let position = field_named(numbering.code.fields_of(place.of), name)?;
    let slot = slot_in(numbering.code.slots(place.of), position);
    number_at(numbers_from(numbers, place.at), slot)
}

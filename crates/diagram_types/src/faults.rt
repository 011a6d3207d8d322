ghost use Rattle.std.specs.Prelude.{◌≡◌, ◌<◌, ◌&&◌, IfOk, List, length, map, nat_lt, false, option_and_then, slice_get};
ghost use Rattle.std.specs.Option.{option_map_or};
ghost use Rattle.base_refusals.specs.Refusals as plain;
ghost use Rattle.base_fixed_point.specs.declared.FixType.{FixType};
ghost use Rattle.diagram_blocks.specs.Limits.{HasInputTypes, IsWithinLimits};
ghost use Rattle.diagram_blocks.specs.Width as width;
ghost use Rattle.diagram_meaning.specs.Rows.{by_row, row_at, trigger_wire};
ghost use Rattle.diagram_meaning.specs.Types as type;
ghost use Rattle.base_refusals.specs.FirstRefusal.{least_line, as_plain, found_where};
ghost use Rattle.diagram_meaning.specs.TypeRefusals.{followed_type, line_at, type_faults};
ghost use Rattle.diagram_meaning.specs.TypeRefusals as refusal;
ghost use Rattle.diagram_types.specs.Inferred.{AreCountable};

use crate::rows::{
    boolean, first_wire, is_boolean_by_kind, is_port, met_at, row_at, trigger_wire, type_at,
};
use crate::rules::written_type;
use base_core::Memory;
use base_fixed_point::FixType;
use base_refusals::{Refusal, TypeWhy};
use diagram_blocks::wide_bits;
use diagram_meaning::Row;
use std::alloc::Global;

/// The most bits that a row may need.
const MOST_BITS: u32 = 62;

/// The type of a row, if it has one; past the end it is boolean.
#[tactic(auto, using(crate::proofs::FaultLemmas::past_boolean, crate::proofs::FaultLemmas::met_followed))]
pub(crate) fn type_of_row(rows: &[Row], met: &[Option<FixType>], b: usize) -> Option<FixType>
    requires { met.now ≡ by_row rows.now (followed_type rows.now) }
    ensures { result ≡ refusal.type_of_row rows.now b }
{
    if b >= rows.len() || is_boolean_by_kind(&row_at(rows, b).kind) {
        Some(boolean())
    } else {
        met_at(met, b)
    }
}

/// The type that is met from the first input of a row, if it has one.
#[tactic(auto, using(crate::proofs::FaultLemmas::met_followed))]
fn input_met(rows: &[Row], met: &[Option<FixType>], b: usize) -> Option<FixType>
    requires met { met.now ≡ by_row rows.now (followed_type rows.now) }
    requires row { b < length rows.now }
    ensures { result
        ≡ option_and_then (followed_type rows.now) (slice_get (row_at rows.now b).inputs 0) }
{
    match first_wire(row_at(rows, b)) {
        Some(input) => met_at(met, input as usize),
        None => None,
    }
}

/// The type of the row that triggers a subsystem, if both are there.
fn trigger_type(rows: &[Row], met: &[Option<FixType>], b: usize) -> Option<FixType>
    requires met { met.now ≡ by_row rows.now (followed_type rows.now) }
    requires row { b < length rows.now }
    ensures { result ≡ option_and_then (refusal.type_of_row rows.now) (trigger_wire rows.now b) }
{
    match trigger_wire(row_at(rows, b)) {
        Some(wire) => type_of_row(rows, met, wire as usize),
        None => None,
    }
}

/// Whether both types are there and differ.
fn are_unlike(written: Option<FixType>, input: Option<FixType>) -> bool
    ensures { result ≡ refusal.are_unlike written input }
{
    match (written, input) {
        (Some(written), Some(input)) => written != input,
        _ => false,
    }
}

/// Whether a row is an Inport or Outport that writes another type than that of its input.
fn is_unlike(rows: &[Row], met: &[Option<FixType>], b: usize) -> bool
    requires met { met.now ≡ by_row rows.now (followed_type rows.now) }
    requires row { b < length rows.now }
    ensures { result ≡ refusal.is_unlike rows.now b }
{
    let row = row_at(rows, b);
    is_port(&row.kind) && are_unlike(written_type(row), input_met(rows, met, b))
}

/// What is wrong with the type of a row.
pub(crate) fn type_fault(rows: &[Row], met: &[Option<FixType>], b: usize) -> Option<Refusal>
    requires met { met.now ≡ by_row rows.now (followed_type rows.now) }
    requires row { b < length rows.now }
    ensures { as_plain result ≡ least_line (type_faults rows.now b) }
{
    let line = row_at(rows, b).place.line;
    if type_of_row(rows, met, b).is_none() {
        let why = TypeWhy::Missing;
        Some(Refusal::NoType { line, why })
    } else if is_unlike(rows, met, b) {
        let why = TypeWhy::Unlike;
        Some(Refusal::NoType { line, why })
    } else {
        None
    }
}

/// Whether a type is there and has a sign.
fn is_signed(t: Option<FixType>) -> bool
    ensures { result ≡ option_map_or (λ (t : FixType). t.signed) t false }
{
    match t {
        Some(t) => t.signed,
        None => false,
    }
}

/// The refusal of a subsystem whose trigger has a signed type.
pub(crate) fn trigger_fault(rows: &[Row], met: &[Option<FixType>], b: usize) -> Option<Refusal>
    requires met { met.now ≡ by_row rows.now (followed_type rows.now) }
    requires row { b < length rows.now }
    ensures { as_plain result
        ≡ found_where (refusal.has_signed_trigger rows.now)
        (λ e. plain.TriggerSigned (line_at rows.now e)) b }
{
    if is_signed(trigger_type(rows, met, b)) {
        let line = row_at(rows, b).place.line;
        Some(Refusal::TriggerSigned { line })
    } else {
        None
    }
}

/// The types of the rows that a row's inputs read.
fn input_types(alloc: Global, row: &Row, types: &[FixType]) -> Result<Vec<FixType>, Memory>
    ensures { IfOk result (λ v. v.items ≡ map (type.type_at types.now) row.now.inputs) }
{
    let mut inputs = Vec::new(alloc);
    for input in row.inputs.wires() {
        inputs.push(type_at(types, *input as usize))?;
    }
    Ok(inputs)
}

/// The bits that a row needs, given the types of all rows and its own.
pub(crate) fn bits_of_row(
    alloc: Global,
    row: &Row,
    types: &[FixType],
    out: FixType,
) -> Result<u32, Memory>
    requires has_types { HasInputTypes row.now.kind (map (type.type_at types.now) row.now.inputs) }
    requires within_limits { IsWithinLimits row.now.kind }
    ensures { IfOk result (λ bits. bits
        ≡ width.wide_bits row.now.kind (map (type.type_at types.now) row.now.inputs) out) }
{
    let inputs = input_types(alloc, row, types)?;
    Ok(wide_bits(&row.kind, inputs.as_slice(), out))
}

/// The refusal of a row that needs too many bits, given the types of all rows.
pub(crate) fn wide_fault(
    alloc: Global,
    rows: &[Row],
    types: &[FixType],
    b: usize,
) -> Result<Option<Refusal>, Memory>
    requires countable { AreCountable rows.now }
    requires row { b < length rows.now }
    ensures { IfOk result (λ fault. as_plain fault
        ≡ found_where (λ b. nat_lt 62 (refusal.bits_of_row rows.now types.now b))
        (λ b. plain.TooWide (line_at rows.now b) (refusal.bits_of_row rows.now types.now b)) b) }
{
    let row = row_at(rows, b);
    let bits = bits_of_row(alloc, row, types, type_at(types, b))?;
    if bits > MOST_BITS {
        let line = row.place.line;
        Ok(Some(Refusal::TooWide { line, bits }))
    } else {
        Ok(None)
    }
}

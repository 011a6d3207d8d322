ghost use Rattle.std.specs.Prelude.{◌≡◌, IfOk, nat_lt, map, filter};
ghost use Rattle.std.specs.Option.{option_or};
ghost use Rattle.base_refusals.specs.Refusals as plain;
ghost use Rattle.diagram_meaning.specs.Rows.{by_row, row_numbers};
ghost use Rattle.base_refusals.specs.FirstRefusal.{least_line, as_plain};
ghost use Rattle.diagram_meaning.specs.TypeRefusals.{followed_type, bad_types, signed_triggers, bits_of_row, line_at};
ghost use Rattle.diagram_types.specs.Inferred.{AreCountable};

use crate::faults::{trigger_fault, type_fault, wide_fault};
use base_core::Memory;
use base_fixed_point::FixType;
use base_refusals::{Refusal, earlier};
use diagram_meaning::Row;
use std::alloc::Global;

/// The first row without a type, or with one unlike its input's.
fn least_bad_type(rows: &[Row], met: &[Option<FixType>]) -> Option<Refusal>
    requires { met.now ≡ by_row rows.now (followed_type rows.now) }
    ensures { as_plain result ≡ least_line (bad_types rows.now) }
{
    let mut least = None;
    for b in 0..rows.len() {
        least = earlier(least, type_fault(rows, met, b));
    }
    least
}

/// The first subsystem whose trigger has a signed type.
fn least_signed_trigger(rows: &[Row], met: &[Option<FixType>]) -> Option<Refusal>
    requires { met.now ≡ by_row rows.now (followed_type rows.now) }
    ensures { as_plain result ≡ least_line (signed_triggers rows.now) }
{
    let mut least = None;
    for b in 0..rows.len() {
        least = earlier(least, trigger_fault(rows, met, b));
    }
    least
}

/// The first refusal of rows for what is met by following rules.
pub(crate) fn refusal_of_rules(rows: &[Row], met: &[Option<FixType>]) -> Option<Refusal>
    requires { met.now ≡ by_row rows.now (followed_type rows.now) }
    ensures { as_plain result
        ≡ option_or (least_line (bad_types rows.now)) (least_line (signed_triggers rows.now)) }
{
    match least_bad_type(rows, met) {
        Some(refusal) => Some(refusal),
        None => least_signed_trigger(rows, met),
    }
}

/// The first row that needs too many bits, given the types of all rows.
pub(crate) fn least_wide_row(
    alloc: Global,
    rows: &[Row],
    types: &[FixType],
) -> Result<Option<Refusal>, Memory>
    requires { AreCountable rows.now }
    ensures { IfOk result (λ found. as_plain found
        ≡ least_line
        (map (λ b. plain.TooWide (line_at rows.now b) (bits_of_row rows.now types.now b))
        (filter (λ b. nat_lt 62 (bits_of_row rows.now types.now b)) (row_numbers rows.now)))) }
{
    let mut least = None;
    for b in 0..rows.len() {
        least = earlier(least, wide_fault(alloc, rows, types, b)?);
    }
    Ok(least)
}

ghost use Rattle.std.specs.Prelude.{◌≡◌, IfOk, IfErr, None};
ghost use Rattle.std.specs.Option.{option_or};
ghost use Rattle.diagram_meaning.specs.Rows.{by_row};
ghost use Rattle.base_refusals.specs.FirstRefusal.{least_line};
ghost use Rattle.diagram_meaning.specs.TypeRefusals.{bad_types, followed_type, signed_triggers};
ghost use Rattle.diagram_meaning.specs.TypeRefusals as refusal;
ghost use Rattle.diagram_types.specs.Inferred.{AreCountable, AreTypes, IsTypeFault};

use crate::faults::type_of_row;
use crate::follow::follow_types;
use crate::passes::{least_wide_row, refusal_of_rules};
use crate::rows::boolean;
use base_core::Memory;
use base_fixed_point::FixType;
use diagram_meaning::{BuildFault, Row, Tree};
use std::alloc::Global;

/// The types of all rows; a row without one counts as boolean.
fn types_of_rows(
    alloc: Global,
    rows: &[Row],
    met: &[Option<FixType>],
) -> Result<Vec<FixType>, Memory>
    requires { met.now ≡ by_row rows.now (followed_type rows.now) }
    ensures { IfOk result (λ v. v.items ≡ refusal.types_of_rows rows.now) }
{
    let mut types = Vec::new(alloc);
    for b in 0..rows.len() {
        types.push(type_of_row(rows, met, b).unwrap_or(boolean()))?;
    }
    Ok(types)
}

/// The types of rows that are not refused for what is met from them.
fn narrow_types(
    alloc: Global,
    rows: &[Row],
    met: &[Option<FixType>],
) -> Result<Vec<FixType>, BuildFault>
    requires countable { AreCountable rows.now }
    requires met { met.now ≡ by_row rows.now (followed_type rows.now) }
    requires accepted { option_or (least_line (bad_types rows.now)) (least_line (signed_triggers rows.now))
        ≡ None }
    ensures types { IfOk result (λ types. AreTypes rows.now types.items) }
    ensures refused { IfErr result (IsTypeFault rows.now) }
{
    let types = types_of_rows(alloc, rows, met)?;
    match least_wide_row(alloc, rows, types.as_slice())? {
        Some(refused) => Err(BuildFault::Refused(refused)),
        None => Ok(types),
    }
}

/// The types of rows.
pub(crate) fn infer(alloc: Global, rows: &[Row]) -> Result<Vec<FixType>, BuildFault>
    requires { AreCountable rows.now }
    ensures types { IfOk result (λ types. AreTypes rows.now types.items) }
    ensures refused { IfErr result (IsTypeFault rows.now) }
{
    let met = follow_types(alloc, rows)?;
    match refusal_of_rules(rows, met.as_slice()) {
        Some(refused) => Err(BuildFault::Refused(refused)),
        None => narrow_types(alloc, rows, met.as_slice()),
    }
}

/// The type of each row of a diagram, boolean for a row without a value.
///
/// Refused with the first of what is wrong with types: a row without a type or with one unlike its input's, then a signed
/// trigger, then a row that needs more than 62 bits; of each kind that with the least line.
pub fn infer_types(alloc: Global, tree: &Tree) -> Result<Vec<FixType>, BuildFault>
    ensures types { IfOk result (λ types. AreTypes tree.now.table.rows types.items) }
    ensures refused { IfErr result (IsTypeFault tree.now.table.rows) }
{
    infer(alloc, tree.table().rows.as_slice())
}

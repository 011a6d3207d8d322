ghost use Rattle.std.specs.Prelude.{◌≡◌, ◌<◌, [], IfOk, OnOk, EachIndex, length, slice_index};
ghost use Rattle.diagram_meaning.specs.Rows.{by_row};
ghost use Rattle.diagram_meaning.specs.TypeRefusals.{followed_type};
ghost use Rattle.diagram_types.specs.Walks.{AreMarks, AllMeet, AreSettled};

use crate::marks::{Mark, is_new, mark_at, met_by};
use crate::rows::row_at;
use crate::rules::{Rule, type_rule};
use base_core::Memory;
use base_fixed_point::FixType;
use diagram_meaning::Row;
use std::alloc::Global;

/// The rows from which one type is met, or none.
#[derive(Drop)]
struct Walk {
    path: Vec<usize>,
    met: Option<FixType>,
}

/// For each row the explicit type that is met first when rules are followed from it, if one is met. In linear time.
pub(crate) fn follow_types(alloc: Global, rows: &[Row]) -> Result<Vec<Option<FixType>>, Memory>
    ensures { IfOk result (λ v. v.items ≡ by_row rows.now (followed_type rows.now)) }
{
    let mut all = vec![in alloc; Mark::New; rows.len()]?;
    let marks = all.as_mut_slice();
    let mut types = Vec::new(alloc);
    for b in 0..rows.len() {
        types.push(settle(alloc, rows, marks, b)?)?;
    }
    Ok(types)
}

/// The type that is met from a row; it is then settled, with all rows on the way.
fn settle(
    alloc: Global,
    rows: &[Row],
    marks: &mut [Mark],
    start: usize,
) -> Result<Option<FixType>, Memory>
    requires { AreMarks rows.now marks.old [] }
    ensures met { IfOk result (λ met. met ≡ followed_type rows.now start) }
    ensures marks { OnOk result (AreMarks rows.now marks.new []) }
{
    let walk = follow(alloc, rows, marks, start)?;
    settle_path(marks, walk.path.as_slice(), walk.met);
    Ok(walk.met)
}

/// Follows rules from a row, as far as nothing is known of the rows on the way, and marks these.
fn follow(alloc: Global, rows: &[Row], marks: &mut [Mark], start: usize) -> Result<Walk, Memory>
    requires { AreMarks rows.now marks.old [] }
    ensures met { IfOk result (λ walk. walk.met ≡ followed_type rows.now start) }
    ensures path { IfOk result (λ walk. AllMeet rows.now walk.path.items walk.met) }
    ensures marks { IfOk result (λ walk. AreMarks rows.now marks.new walk.path.items) }
{
    let mut path = Vec::new(alloc);
    let mut at = start;
    'walk: while is_new(mark_at(marks, at)) {
        marks[at] = Mark::OnPath;
        path.push(at)?;
        match type_rule(row_at(rows, at)) {
            Rule::SameAs(next) => at = next as usize,
            Rule::Known(t) => return Ok(Walk { path, met: Some(t) }),
            Rule::NoRule => return Ok(Walk { path, met: None }),
        }
    }
    let met = met_by(mark_at(marks, at));
    Ok(Walk { path, met })
}

/// Settles what is met from all rows of a path.
fn settle_path(marks: &mut [Mark], path: &[usize], met: Option<FixType>)
    requires { EachIndex path.now (λ i. slice_index path.now i < length marks.old) }
    ensures { AreSettled marks.old marks.new path.now (length path.now) met }
{
    for b in path {
        marks[*b] = Mark::Settled(met);
    }
}

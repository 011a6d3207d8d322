ghost use Rattle.std.specs.Prelude.{◌≡◌, None, Some, [], MatchOption, map, slice_get, slice_index_or};
ghost use Rattle.c_syntax.specs.PlainField.{field_tree, field_trees};
ghost use Rattle.emit_notes.specs.FunctionNotes as function;
ghost use Rattle.emit_notes.specs.Outports as stored;

use crate::labels::Label;
use c_syntax::{Field, StructDef};

/// The label of a row, if the row is there.
pub(crate) fn label_at(labels: &[Label], row: usize) -> Option<&Label>
    ensures { MatchOption result (slice_get labels.now row ≡ None)
        (λ l. slice_get labels.now row ≡ Some l.now) }
{
    labels.get(row)
}

/// The port of a row, if it is an Outport.
pub(crate) fn outport_at(labels: &[Label], row: usize) -> Option<u32>
    ensures { result ≡ stored.outport_at labels.now row }
{
    match label_at(labels, row) {
        Some(label) => label.outport,
        None => None,
    }
}

/// The port of a row, if it is an Inport.
pub(crate) fn inport_at(labels: &[Label], row: usize) -> Option<u32>
    ensures { result ≡ function.inport_at labels.now row }
{
    match label_at(labels, row) {
        Some(label) => label.inport,
        None => None,
    }
}

/// The struct at a position, if there is one.
pub(crate) fn struct_at(structs: &[StructDef], position: u32) -> Option<&StructDef>
    ensures { MatchOption result (slice_get structs.now position ≡ None)
        (λ d. slice_get structs.now position ≡ Some d.now) }
{
    structs.get(position as usize)
}

/// The field at a position, if there is one.
pub(crate) fn field_at(fields: &[Field], position: u32) -> Option<&Field>
    ensures { MatchOption result (slice_get (field_trees fields.now) position ≡ None)
        (λ f. slice_get (field_trees fields.now) position ≡ Some (field_tree f.now)) }
{
    fields.get(position as usize)
}

/// What the procedure at a position stores, where these are the rows that each before it does; nothing past the end.
pub(crate) fn stored_by(earlier: &[Vec<usize>], procedure: u32) -> &[usize]
    ensures { result.now ≡ slice_index_or (map (λ x. x.items) earlier.now) procedure [] }
{
    match earlier.get(procedure as usize) {
        Some(rows) => rows.as_slice(),
        None => &[],
    }
}

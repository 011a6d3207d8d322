ghost use Rattle.std.specs.Prelude.{◌≡◌, ◌++◌, IfOk, OnOk, [], slice_get};
ghost use Rattle.std.specs.Option.{option_map_or};
ghost use Rattle.c_syntax.specs.Plain.{procedure_tree};
ghost use Rattle.emit_notes.specs.FunctionNotes as function;

use crate::bytes::push_bytes;
use crate::labels::Label;
use crate::lookups::label_at;
use crate::ports::{by_port, taken_inports};
use base_core::Memory;
use c_syntax::{Procedure, StructDef};
use std::alloc::Global;

/// The name of a row, empty where the row isn't there.
fn row_name(labels: &[Label], row: usize) -> &[u8]
    ensures { result.now ≡ option_map_or (λ l. l.name) (slice_get labels.now row) [] }
{
    match label_at(labels, row) {
        Some(label) => label.name.bytes(),
        None => &[],
    }
}

/// Adds the name of a row in quotes, after some text.
fn push_quoted(out: &mut Vec<u8>, labels: &[Label], before: &[u8], row: usize) -> Result<(), Memory>
    ensures { OnOk result (out.new.items
        ≡ out.old.items ++ function.quoted labels.now before.now row) }
{
    push_bytes(out, before)?;
    push_bytes(out, b"\"")?;
    push_bytes(out, row_name(labels, row))?;
    push_bytes(out, b"\"")
}

/// Adds the names of rows in quotes, with commas between them, after some text; of no rows nothing.
fn push_listed(
    out: &mut Vec<u8>,
    labels: &[Label],
    before: &[u8],
    rows: &[usize],
) -> Result<(), Memory>
    ensures { OnOk result (out.new.items
        ≡ out.old.items ++ function.listed labels.now before.now rows.now) }
{
    let Some((first, later)) = rows.split_first() else {
        return Ok(());
    };
    push_quoted(out, labels, before, *first)?;
    for row in later {
        push_quoted(out, labels, b", ", *row)?;
    }
    Ok(())
}

/// Whether a name is that of an output function of a system.
fn is_function_of(system: &[u8], name: &[u8]) -> bool
    ensures { result ≡ function.is_function_of system.now name.now }
{
    name.starts_with(system) && name[system.len()..].starts_with(b"_out")
}

/// The note on a procedure of a struct, which stores these Outports.
pub(crate) fn function_note(
    alloc: Global,
    labels: &[Label],
    def: &StructDef,
    procedure: &Procedure,
    outports: &[usize],
) -> Result<Vec<u8>, Memory>
    ensures { IfOk result (λ v. v.items ≡ function.function_note labels.now def.now
        (procedure_tree procedure.now) outports.now) }
{
    let mut note = Vec::new(alloc);
    if !is_function_of(def.name.bytes(), procedure.name.bytes()) {
        return Ok(note);
    }
    let given = by_port(alloc, labels, outports)?;
    let taken = taken_inports(alloc, labels, &def.fields, &procedure.params)?;
    push_listed(&mut note, labels, b"", &given)?;
    push_listed(&mut note, labels, b" from ", &taken)?;
    Ok(note)
}

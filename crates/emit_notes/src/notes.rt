ghost use Rattle.std.specs.Prelude.{◌≡◌, IfOk, map};
ghost use Rattle.c_syntax.specs.Plain.{program_tree};
ghost use Rattle.c_syntax.specs.PlainField.{field_tree};
ghost use Rattle.c_printer.specs.Notes.{notes_seen, struct_notes_seen};
ghost use Rattle.emit_notes.specs.BlockNotes as noted;
ghost use Rattle.emit_notes.specs.Labels.{labels_seen};
ghost use Rattle.emit_notes.specs.ProgramNotes.{notes_of};

use crate::block_notes::use_note;
use crate::labels::{Label, Labels};
use crate::name_uses::use_of;
use crate::procedures::procedure_notes;
use crate::systems::system_note;
use base_core::Memory;
use c_printer::{Notes, StructNotes};
use c_syntax::{Field, Program, StructDef};
use std::alloc::Global;

/// The notes on fields.
fn field_notes(alloc: Global, labels: &[Label], fields: &[Field]) -> Result<Vec<Vec<u8>>, Memory>
    ensures { IfOk result (λ v. map (λ note. note.items) v.items
        ≡ map (noted.field_note labels.now) (map field_tree fields.now)) }
{
    let mut notes = Vec::with_capacity(alloc, fields.len())?;
    for field in fields {
        notes.push(use_note(alloc, labels, use_of(field.name.bytes()))?)?;
    }
    Ok(notes)
}

/// The notes on a struct and its fields.
fn struct_notes(alloc: Global, labels: &[Label], def: &StructDef) -> Result<StructNotes, Memory>
    ensures { IfOk result (λ n. struct_notes_seen n ≡ noted.struct_notes labels.now def.now) }
{
    Ok(StructNotes {
        above: system_note(alloc, labels, use_of(def.name.bytes()))?,
        fields: field_notes(alloc, labels, def.fields.as_slice())?,
    })
}

/// The notes on structs.
fn notes_on_structs(
    alloc: Global,
    labels: &[Label],
    structs: &[StructDef],
) -> Result<Vec<StructNotes>, Memory>
    ensures { IfOk result (λ v. map struct_notes_seen v.items
        ≡ map (noted.struct_notes labels.now) structs.now) }
{
    let mut notes = Vec::with_capacity(alloc, structs.len())?;
    for def in structs {
        notes.push(struct_notes(alloc, labels, def)?)?;
    }
    Ok(notes)
}

/// The notes on the code of a model whose blocks have these labels: above the struct of a subsystem its path and line; on a
/// field what it is of which block; above an output function which Outports it gives, and from which Inports.
///
/// # Errors
///
/// Only where memory runs out.
pub fn notes_for(alloc: Global, labels: &Labels, p: &Program) -> Result<Notes, Memory>
    ensures { IfOk result (λ n. notes_seen n ≡ notes_of (labels_seen labels.now) (program_tree p.now)) }
{
    let rows = labels.rows.as_slice();
    let structs = p.structs.as_slice();
    Ok(Notes {
        structs: notes_on_structs(alloc, rows, structs)?,
        procedures: procedure_notes(alloc, rows, structs, p.procedures.as_slice())?,
    })
}

ghost use Rattle.std.specs.Prelude.{◌≡◌, IfOk, [], map};
ghost use Rattle.c_syntax.specs.Plain.{procedure_tree};
ghost use Rattle.emit_notes.specs.FunctionNotes as function;

use crate::functions::function_note;
use crate::labels::Label;
use crate::lookups::struct_at;
use crate::outports::push_stmts;
use base_core::Memory;
use c_syntax::{Procedure, StructDef};
use std::alloc::Global;

/// The note on a procedure, and the Outports that it stores.
#[derive(Drop)]
struct NotedProcedure {
    note: Vec<u8>,
    outports: Vec<usize>,
}

/// The Outports that a procedure of a struct stores.
fn stored_outports(
    alloc: Global,
    labels: &[Label],
    def: &StructDef,
    earlier: &[Vec<usize>],
    procedure: &Procedure,
) -> Result<Vec<usize>, Memory>
    ensures { IfOk result (λ v. v.items ≡ function.stored_outports labels.now def.now
        (map (λ x. x.items) earlier.now) (procedure_tree procedure.now)) }
{
    let mut outports = Vec::new(alloc);
    push_stmts(
        labels,
        def.fields.as_slice(),
        earlier,
        &mut outports,
        procedure.body.as_slice(),
    )?;
    Ok(outports)
}

/// The note on a procedure, and the Outports that it stores, where each procedure before it stores those in `earlier`.
fn noted_procedure(
    alloc: Global,
    labels: &[Label],
    structs: &[StructDef],
    earlier: &[Vec<usize>],
    procedure: &Procedure,
) -> Result<NotedProcedure, Memory>
    ensures note { IfOk result (λ n. n.note.items ≡ function.procedure_note labels.now structs.now
        (procedure_tree procedure.now) n.outports.items) }
    ensures outports { IfOk result (λ n. n.outports.items ≡ function.procedure_outports labels.now
        structs.now (map (λ x. x.items) earlier.now) (procedure_tree procedure.now)) }
{
    let Some(def) = struct_at(structs, procedure.of) else {
        return Ok(NotedProcedure {
            note: Vec::new(alloc),
            outports: Vec::new(alloc),
        });
    };
    let outports = stored_outports(alloc, labels, def, earlier, procedure)?;
    let note = function_note(alloc, labels, def, procedure, outports.as_slice())?;
    Ok(NotedProcedure { note, outports })
}

/// The notes on the procedures of a program with these structs.
pub(crate) fn procedure_notes(
    alloc: Global,
    labels: &[Label],
    structs: &[StructDef],
    procedures: &[Procedure],
) -> Result<Vec<Vec<u8>>, Memory>
    ensures { IfOk result (λ v. map (λ note. note.items) v.items
        ≡ function.procedure_notes labels.now structs.now [] (map procedure_tree procedures.now)) }
{
    let mut notes = Vec::with_capacity(alloc, procedures.len())?;
    let mut earlier = Vec::with_capacity(alloc, procedures.len())?;
    for procedure in procedures {
        let NotedProcedure { note, outports } = noted_procedure(
            alloc,
            labels,
            structs,
            earlier.as_slice(),
            procedure,
        )?;
        notes.push(note)?;
        earlier.push(outports)?;
    }
    Ok(notes)
}

ghost use Rattle.std.specs.Prelude.{IfOk};
ghost use Rattle.c_syntax.specs.Plain.{program_tree};
ghost use Rattle.c_syntax.specs.Lawful.{IsLawful};
ghost use Rattle.right_pruned.specs.Laws.{IsTextOfCode};
ghost use Rattle.emit_notes.specs.Labels.{labels_seen};
ghost use Rattle.emit_notes.specs.ModelNotes.{IsNotedBy};

use base_core::Memory;
use c_printer::print_with_notes;
use c_syntax::Program;
use emit_notes::{Labels, notes_for};
use emit_simplified::{simplified, simplified_is_lawful};
use right_simplified::text_of_simplified_is_right;
use std::alloc::Global;

/// The text of a program that is simplified, with the notes of blocks with these labels.
///
/// Fails only when memory runs out.
pub(crate) fn simplified_text(
    alloc: Global,
    labels: &Labels,
    program: Program,
) -> Result<Vec<u8>, Memory>
    requires { IsLawful (program_tree program) }
    ensures code { IfOk result (λ code. IsTextOfCode code.items (program_tree program)) }
    ensures noted { IfOk result (λ code. IsNotedBy (labels_seen labels.now) code.items) }
{
    simplified_is_lawful();
    text_of_simplified_is_right();
    let written = simplified(alloc, program)?;
    let notes = notes_for(alloc, labels, &written)?;
    Ok(print_with_notes(alloc, &notes, &written)?)
}

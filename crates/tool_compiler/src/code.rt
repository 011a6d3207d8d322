ghost use Rattle.std.specs.Prelude.{IfOk};
ghost use Rattle.diagram_meaning.specs.Needs.{needs_of, HasNoLoop};
ghost use Rattle.diagram_meaning.specs.ResolvedTable.{table_of_tree};
ghost use Rattle.diagram_meaning.specs.ResolvedTree.{diagram_of};
ghost use Rattle.tool_compiled.specs.Compilation.{IsCompilationOf};
ghost use Rattle.emit_notes.specs.Labels.{labels_seen};
ghost use Rattle.emit_notes.specs.ModelNotes.{IsNotedBy};

use crate::inputs::input_types;
use crate::text::simplified_text;
use base_core::Memory;
use diagram_meaning::Resolved;
use emit_notes::Labels;
use emit_program::{Emitted, emit};
use std::alloc::Global;
use tool_compiled::Compiled;

/// The code of a model without a loop, whose code is right for its diagram in all parts, with notes of blocks with these
/// labels, and the numbers of what it has.
///
/// # Errors
///
/// Only where memory runs out.
pub fn compiled_from(alloc: Global, r: &Resolved, labels: &Labels) -> Result<Compiled, Memory>
    requires { HasNoLoop (needs_of (diagram_of r.now)) }
    ensures compiled { IfOk result (IsCompilationOf (table_of_tree r.now)) }
    ensures noted { IfOk result (λ c. IsNotedBy (labels_seen labels.now) c.code) }
{
    let emitted = emit(alloc, r)?;
    let Emitted {
        program,
        systems,
        functions,
    } = emitted;
    let code = simplified_text(alloc, labels, program)?;
    let rows = r.tree.table().rows.as_slice();
    Ok(Compiled {
        rows: rows.len() as u32,
        systems,
        functions,
        inputs: input_types(alloc, rows, r.types.as_slice())?,
        code,
    })
}

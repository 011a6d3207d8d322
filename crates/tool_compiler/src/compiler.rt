ghost use Rattle.std.specs.Prelude.{IfOk, IfErr};
ghost use Rattle.diagram_verdict.specs.Faults.{IsFaultOf};
ghost use Rattle.tool_compiled.specs.Compilation.{IsCompiledFrom};

use crate::code::compiled_from;
use diagram_verdict::{ModelFault, accept_sections, read_file};
use emit_notes::labels_of;
use std::alloc::Global;
use tool_compiled::Compiled;

/// Compiles a model's text (MDL, as the Simulink reference describes it) to C99.
///
/// Each model that the rules accept is compiled: its code has one reading, and that is code for the model's diagram, with a
/// struct and procedures of its own for each system, and notes that name the blocks. `Refused` comes exactly where the file
/// is refused, with its first refusal.
pub fn compile(alloc: Global, bytes: &[u8]) -> Result<Compiled, ModelFault>
    ensures compiled { IfOk result (IsCompiledFrom bytes.now) }
    ensures refused { IfErr result (IsFaultOf bytes.now) }
{
    let file = read_file(alloc, bytes)?;
    let resolved = accept_sections(alloc, &file)?;
    let labels = labels_of(alloc, &file)?;
    Ok(compiled_from(alloc, &resolved, &labels)?)
}

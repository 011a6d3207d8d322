// The parts of a code.
ghost use Rattle.std.specs.Prelude.{◌≡◌, map};
ghost use Rattle.c_syntax.specs.PlainField.{field_trees};
ghost use Rattle.c_syntax.specs.Plain.{procedure_tree};
ghost use Rattle.emit_shape.specs.SystemTree.{system_tree};

use c_syntax::{Field, Procedure, StructDef};
use emit_shape::SystemCode;

/// The name of the struct of a code.
pub(crate) fn system_name(code: &SystemCode) -> &[u8]
    ensures { result.now ≡ (system_tree code.now).structure.name }
{
    code.structure.name.bytes()
}

/// The fields of a struct.
fn fields_in(structure: &StructDef) -> &[Field]
    ensures { field_trees result.now ≡ structure.now.fields }
{
    structure.fields.as_slice()
}

/// The fields of the struct of a code.
pub(crate) fn fields_of(code: &SystemCode) -> &[Field]
    ensures { field_trees result.now ≡ (system_tree code.now).structure.fields }
{
    fields_in(&code.structure)
}

/// The outputs of a code.
pub(crate) fn outputs_of(code: &SystemCode) -> &[u32]
    ensures { result.now ≡ (system_tree code.now).outputs }
{
    code.outputs.as_slice()
}

/// The procedures of a code.
pub(crate) fn procedures_of(code: &SystemCode) -> &[Procedure]
    ensures { map procedure_tree result.now ≡ (system_tree code.now).procedures }
{
    code.procedures.as_slice()
}

ghost use Rattle.emit_shape.specs.RelocationLaws.{MovedCodeAgrees};

use c_semantics::procedure_numbers_are_free;

/// Code that is moved does the same where the procedures and outputs that it names are the same.
pub fn moved_code_agrees()
    ensures { MovedCodeAgrees }
{
    procedure_numbers_are_free();
}

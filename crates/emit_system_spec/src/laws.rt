ghost use Rattle.emit_system_spec.specs.Emitted.{EmittedIsEmittable};

use diagram_meaning::resolved_rows_are_narrow;
use emit_row_code::row_ops_are_writable;
use modules_profile::locals_are_lawful;

/// C can write the operations and starts of a system from which code is made, and 32 bits number its ports, fields and
/// procedures.
pub fn emitted_is_emittable()
    ensures { EmittedIsEmittable }
{
    locals_are_lawful();
    resolved_rows_are_narrow();
    row_ops_are_writable();
}

// The equations of a row.
ghost use Rattle.std.specs.Prelude.{◌≡◌, ◌++◌, OnOk, map};
ghost use Rattle.diagram_blocks.specs.Kinds.{is_delay};
ghost use Rattle.diagram_blocks.specs.Meaning.{has_value};
ghost use Rattle.diagram_meaning.specs.Diagram.{op_at as op_of_row};
ghost use Rattle.diagram_meaning.specs.Rows.{row_at};
ghost use Rattle.lustre_syntax.specs.Plain.{equation_tree};
ghost use Rattle.lustre_system.specs.RowEquations as rows;
ghost use Rattle.lustre_system.specs.RowEquations.{only_if};
ghost use Rattle.lustre_row_equations.specs.Placed.{placed_equations};
ghost use Rattle.lustre_row_equations.specs.SystemScopes.{HasOwnNames, HasRow, diagram_in};

use crate::memories::memory_equations;
use crate::reading::op_at;
use crate::scopes::SystemScope;
use crate::values::value_equations;
use base_core::Memory;
use lustre_syntax::LusEq;
use std::alloc::Global;

/// Adds the equations of what row `b` of a system remembers, and of its value; not the call of a
/// subsystem.
pub fn own_equations(
    alloc: Global,
    scope: &SystemScope,
    b: u32,
    equations: &mut Vec<LusEq>,
) -> Result<(), Memory>
    requires inside { HasRow scope.now b }
    requires named { HasOwnNames scope.now }
    ensures { let s = scope.now in let d = diagram_in s in
        OnOk result (map equation_tree equations.new.items
        ≡ map equation_tree equations.old.items ++ placed_equations s.names.now
        (only_if (is_delay (op_of_row d b)) (rows.memory_equations d s.system b)
        ++ only_if (has_value (row_at d.rows b).kind) (rows.value_equations d s.system b))) }
{
    if op_at(scope.diagram, b).is_delay() {
        memory_equations(alloc, scope, b, equations)?;
    }
    if scope.diagram.row(b).kind.has_value() {
        value_equations(alloc, scope, b, equations)?;
    }
    Ok(())
}

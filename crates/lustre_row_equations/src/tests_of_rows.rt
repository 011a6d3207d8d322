// The tests of a row: whether it runs, and whether its output is reset.
ghost use Rattle.std.specs.Prelude.{◌≡◌, ℕ, Option, None, IfOk, if◌then◌else◌};
ghost use Rattle.std.specs.Option.{option_map};
ghost use Rattle.diagram_blocks.specs.Kinds.{is_reset_outport};
ghost use Rattle.diagram_meaning.specs.Diagram.{Diagram};
ghost use Rattle.diagram_meaning.specs.Rows.{row_at, system_control};
ghost use Rattle.c_syntax.specs.Plain.{cond_tree};
ghost use Rattle.emit_row_code.specs.TestCode as code;
ghost use Rattle.lustre_syntax.specs.Plain.{expr_tree};
ghost use Rattle.lustre_system.specs.Names as system_names;
ghost use Rattle.lustre_system.specs.RowEquations as rows;
ghost use Rattle.lustre_expressions.specs.Scopes.{AreNamesOf};
ghost use Rattle.lustre_row_equations.specs.Placed.{placed_expr};
ghost use Rattle.lustre_row_equations.specs.SystemScopes.{HasOwnNames, HasRow, diagram_in};

use crate::building::also;
use crate::leaves::{control_leaves, now_leaf};
use crate::reading::time_at;
use crate::scopes::SystemScope;
use base_core::Memory;
use c_syntax::Cond;
use emit_row_code::{disabled_by, hit_test};
use lustre_expressions::{Calls, RowNames, test_from};
use lustre_syntax::LusExpr;
use std::alloc::Global;

/// A test of C as Lustre, where there is one; the names are those of no row.
pub fn test_value(
    alloc: Global,
    names: &RowNames<'_, '_, '_, '_>,
    test: Option<Cond>,
) -> Result<Option<LusExpr>, Memory>
    ensures { IfOk result (λ value. (d : Diagram) (s : Option ℕ) →
        AreNamesOf names.now d.rows s None → option_map expr_tree value
        ≡ option_map (placed_expr names.now) (rows.test_in d s (option_map cond_tree test))) }
{
    let Some(test) = test else {
        return Ok(None);
    };
    let mut calls = Calls {
        equations: Vec::new(alloc),
        count: 0,
    };
    Ok(Some(test_from(alloc, names, &mut calls, &test)?))
}

/// Whether row `b` runs.
pub(crate) fn runs(alloc: Global, scope: &SystemScope, b: u32) -> Result<LusExpr, Memory>
    requires inside { HasRow scope.now b }
    requires named { HasOwnNames scope.now }
    ensures { let s = scope.now in IfOk result (λ e. expr_tree e
        ≡ placed_expr s.names.now (rows.runs (diagram_in s) s.system b)) }
{
    let active = LusExpr::Name(scope.names.places.place(b"active"));
    let hit = hit_test(alloc, time_at(scope.diagram, b), now_leaf(scope.names)?)?;
    let hit = test_value(alloc, scope.names, hit)?;
    Ok(also(alloc, active, hit)?)
}

/// The test that the system's enable is low, at an Outport that is reset then; `None` never holds.
pub(crate) fn disabled(
    alloc: Global,
    scope: &SystemScope,
    b: u32,
) -> Result<Option<LusExpr>, Memory>
    requires inside { HasRow scope.now b }
    requires named { HasOwnNames scope.now }
    ensures { let s = scope.now in let d = diagram_in s in
        IfOk result (λ value. option_map expr_tree value
        ≡ option_map (placed_expr s.names.now) (if is_reset_outport (row_at d.rows b).kind
        then rows.test_in d s.system
        (code.disabled_by (system_control d.rows s.system)
        (system_names.control_leaves d.rows s.system))
        else None)) }
{
    if !scope.diagram.row(b).kind.is_reset_outport() {
        return Ok(None);
    }
    let test = disabled_by(alloc, scope.names.control, control_leaves(scope.names)?)?;
    Ok(test_value(alloc, scope.names, test)?)
}

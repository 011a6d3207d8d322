// The value of a row.
ghost use Rattle.std.specs.Prelude.{◌≡◌, ◌<◌, ◌++◌, OnOk, IfOk, length, map};
ghost use Rattle.diagram_meaning.specs.ResolvedTree.{diagram_of};
ghost use Rattle.c_syntax.specs.Plain as plain;
ghost use Rattle.lustre_syntax.specs.Plain.{expr_tree, equation_tree};
ghost use Rattle.lustre_system.specs.RowEquations as rows;
ghost use Rattle.lustre_row_equations.specs.Placed.{placed_expr, placed_equations};
ghost use Rattle.lustre_row_equations.specs.RowParts.{computed_value, computed_calls};
ghost use Rattle.lustre_row_equations.specs.SystemScopes.{HasOwnNames, HasRow, diagram_in};

use crate::building::{arrow, choice, set, signed_number, two};
use crate::leaves::leaves_of;
use crate::reading::{op_at, types_of};
use crate::scopes::SystemScope;
use crate::starts::start_of;
use crate::tests_of_rows::{disabled, runs};
use base_core::Memory;
use c_syntax::{Expr, Leaf};
use diagram_meaning::{Resolved, resolved_rows_are_narrow};
use emit_row_code::value_code;
use emit_row_facts::value_name;
use lustre_expressions::{Calls, RowNames, value_from};
use lustre_syntax::{LusEq, LusExpr, LusOp};
use std::alloc::Global;

/// What row `b` computes, as an expression of C.
pub fn row_code(alloc: Global, r: &Resolved, system: Option<u32>, b: u32) -> Result<Expr, Memory>
    requires { b < length r.now.tree.table.rows }
    ensures { IfOk result (λ e. plain.expr_tree e ≡ rows.row_code (diagram_of r.now) system b) }
{
    r.is_resolved();
    resolved_rows_are_narrow();
    let leaves = leaves_of(alloc, r, system, b)?;
    let types = types_of(alloc, r, r.row(b).inputs.wires())?;
    let memory = Expr::Read(Leaf::Child(b, 0));
    value_code(alloc, &op_at(r, b), &leaves, &types, memory)
}

// What is computed where the row runs, and else its value at the tick before.
fn value_or_kept(
    alloc: Global,
    scope: &SystemScope,
    b: u32,
    computed: LusExpr,
) -> Result<LusExpr, Memory>
    requires inside { HasRow scope.now b }
    requires named { HasOwnNames scope.now }
    requires computed { let s = scope.now in expr_tree computed
        ≡ placed_expr s.names.now (computed_value (diagram_in s) s.system b) }
    ensures { let s = scope.now in IfOk result (λ e. expr_tree e
        ≡ placed_expr s.names.now (rows.value_or_kept (diagram_in s) s.system b)) }
{
    let name = value_name(alloc, b)?;
    let before = LusExpr::Pre(scope.names.places.place(name.bytes()));
    let start = signed_number(alloc, start_of(scope.diagram, b))?;
    let kept = arrow(alloc, start, before)?;
    choice(alloc, runs(alloc, scope, b)?, computed, kept)
}

// The value of row `b`, where this is what it computes.
fn row_value(
    alloc: Global,
    scope: &SystemScope,
    b: u32,
    computed: LusExpr,
) -> Result<LusExpr, Memory>
    requires inside { HasRow scope.now b }
    requires named { HasOwnNames scope.now }
    requires computed { let s = scope.now in expr_tree computed
        ≡ placed_expr s.names.now (computed_value (diagram_in s) s.system b) }
    ensures { let s = scope.now in IfOk result (λ e. expr_tree e
        ≡ placed_expr s.names.now (rows.row_value (diagram_in s) s.system b)) }
{
    let value = value_or_kept(alloc, scope, b, computed)?;
    let Some(disabled) = disabled(alloc, scope, b)? else {
        return Ok(value);
    };
    let around = LusExpr::Name(scope.names.places.place(b"on"));
    let test = two(alloc, LusOp::And, around, disabled)?;
    choice(
        alloc,
        test,
        signed_number(alloc, start_of(scope.diagram, b))?,
        value,
    )
}

/// Adds the equations of the value of row `b`: its calls of functions, and the value.
pub(crate) fn value_equations(
    alloc: Global,
    scope: &SystemScope,
    b: u32,
    equations: &mut Vec<LusEq>,
) -> Result<(), Memory>
    requires inside { HasRow scope.now b }
    requires named { HasOwnNames scope.now }
    ensures { let s = scope.now in OnOk result (map equation_tree equations.new.items
        ≡ map equation_tree equations.old.items
        ++ placed_equations s.names.now (rows.value_equations (diagram_in s) s.system b)) }
{
    let (computed, mut calls) = computed(alloc, scope, b)?;
    equations.append(&mut calls)?;
    let value = row_value(alloc, scope, b, computed)?;
    let name = value_name(alloc, b)?;
    equations.push(set(scope.names.places.place(name.bytes()), value))?;
    Ok(())
}

// What row `b` computes, and the calls of functions for it.
fn computed(alloc: Global, scope: &SystemScope, b: u32) -> Result<(LusExpr, Vec<LusEq>), Memory>
    requires inside { HasRow scope.now b }
    requires named { HasOwnNames scope.now }
    ensures value { let s = scope.now in IfOk result (λ x. expr_tree x.0
        ≡ placed_expr s.names.now (computed_value (diagram_in s) s.system b)) }
    ensures calls { let s = scope.now in IfOk result (λ x. map equation_tree x.1.items
        ≡ placed_equations s.names.now (computed_calls (diagram_in s) s.system b)) }
{
    let code = row_code(alloc, scope.diagram, scope.system, b)?;
    let of_row = RowNames {
        places: scope.names.places,
        callees: scope.names.callees,
        control: scope.names.control,
        ports: scope.names.ports,
        row: Some(b),
    };
    let mut calls = Calls {
        equations: Vec::new(alloc),
        count: 0,
    };
    let value = value_from(alloc, &of_row, &mut calls, &code)?;
    Ok((value, calls.equations))
}

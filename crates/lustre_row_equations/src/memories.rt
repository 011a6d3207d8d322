// What a delay remembers.
ghost use Rattle.std.specs.Prelude.{◌≡◌, ◌<◌, ◌++◌, None, OnOk, IfOk, length, map};
ghost use Rattle.diagram_meaning.specs.ResolvedTree.{diagram_of};
ghost use Rattle.lustre_syntax.specs.Plain.{expr_tree, equation_tree};
ghost use Rattle.lustre_system.specs.RowEquations as rows;
ghost use Rattle.lustre_row_equations.specs.Placed.{placed_expr, placed_equation, placed_equations};
ghost use Rattle.lustre_row_equations.specs.RowParts as parts;
ghost use Rattle.lustre_row_equations.specs.SystemScopes.{HasOwnNames, HasRow, diagram_in};

use crate::building::{arrow, choice, set, signed_number};
use crate::reading::op_at;
use crate::scopes::SystemScope;
use crate::starts::start_of;
use crate::tests_of_rows::runs;
use base_core::{Memory, Text};
use diagram_meaning::Resolved;
use emit_row_facts::value_name;
use lustre_expressions::{sample_name, takes_name};
use lustre_syntax::{LusEq, LusExpr};
use std::alloc::Global;

// The name of the row that a delay reads.
fn delayed_name(alloc: Global, r: &Resolved, b: u32) -> Result<Text, Memory>
    requires { b < length r.now.tree.table.rows }
    ensures { IfOk result (λ t. t ≡ rows.delayed_name (diagram_of r.now) None b) }
{
    match r.row(b).inputs.wires().first() {
        Some(wire) => value_name(alloc, *wire),
        None => value_name(alloc, 0),
    }
}

// The name of what sample `k` takes: the next sample, or what the delay reads.
fn next_name(alloc: Global, r: &Resolved, b: u32, k: u32) -> Result<Text, Memory>
    requires { b < length r.now.tree.table.rows }
    ensures { IfOk result (λ t. t ≡ parts.next_name (diagram_of r.now) b k) }
{
    let last = op_at(r, b).delay_length().saturating_sub(1);
    if k < last {
        sample_name(alloc, b, k + 1)
    } else {
        delayed_name(alloc, r, b)
    }
}

// The value of a sample: the start at first and after a reset, the next one where the delay took a
// sample, and else what it was.
fn sample_value(
    alloc: Global,
    scope: &SystemScope,
    b: u32,
    sample: &Text,
    next: &Text,
) -> Result<LusExpr, Memory>
    requires { HasRow scope.now b }
    ensures { let s = scope.now in IfOk result (λ e. expr_tree e ≡ placed_expr s.names.now
        (rows.sample_value (diagram_in s) None b sample.now next.now)) }
{
    let takes = takes_name(alloc, b)?;
    let reset = LusExpr::Pre(scope.names.places.place(b"reset"));
    let takes = LusExpr::Pre(scope.names.places.place(takes.bytes()));
    let next = LusExpr::Pre(scope.names.places.place(next.bytes()));
    let sample = LusExpr::Pre(scope.names.places.place(sample.bytes()));
    let moved = choice(alloc, takes, next, sample)?;
    let later = choice(
        alloc,
        reset,
        signed_number(alloc, start_of(scope.diagram, b))?,
        moved,
    )?;
    arrow(
        alloc,
        signed_number(alloc, start_of(scope.diagram, b))?,
        later,
    )
}

// The equation of sample `k`.
fn sample_equation(alloc: Global, scope: &SystemScope, b: u32, k: u32) -> Result<LusEq, Memory>
    requires { HasRow scope.now b }
    ensures { let s = scope.now in IfOk result (λ e. equation_tree e
        ≡ placed_equation s.names.now (parts.sample_equation (diagram_in s) b k)) }
{
    let sample = sample_name(alloc, b, k)?;
    let next = next_name(alloc, scope.diagram, b, k)?;
    let value = sample_value(alloc, scope, b, &sample, &next)?;
    Ok(set(scope.names.places.place(sample.bytes()), value))
}

// Adds the equations of the samples of row `b`, from the oldest one on.
fn sample_equations(
    alloc: Global,
    scope: &SystemScope,
    b: u32,
    equations: &mut Vec<LusEq>,
) -> Result<(), Memory>
    requires { HasRow scope.now b }
    ensures { let s = scope.now in let d = diagram_in s in
        OnOk result (map equation_tree equations.new.items
        ≡ map equation_tree equations.old.items
        ++ placed_equations s.names.now (rows.sample_equations d None b (rows.samples d None b))) }
{
    let length = op_at(scope.diagram, b).delay_length();
    for k in 0..length {
        equations.push(sample_equation(alloc, scope, b, k)?)?;
    }
    Ok(())
}

/// Adds the equations of what row `b` remembers: whether it takes a sample, and its samples.
pub(crate) fn memory_equations(
    alloc: Global,
    scope: &SystemScope,
    b: u32,
    equations: &mut Vec<LusEq>,
) -> Result<(), Memory>
    requires inside { HasRow scope.now b }
    requires named { HasOwnNames scope.now }
    ensures { let s = scope.now in OnOk result (map equation_tree equations.new.items
        ≡ map equation_tree equations.old.items
        ++ placed_equations s.names.now (rows.memory_equations (diagram_in s) s.system b)) }
{
    let takes = takes_name(alloc, b)?;
    let value = runs(alloc, scope, b)?;
    equations.push(set(scope.names.places.place(takes.bytes()), value))?;
    sample_equations(alloc, scope, b, equations)
}

// What the controls of a system come to: whether it is active, whether it is reset, and what its trigger remembers.
ghost use Rattle.std.specs.Prelude.{◌≡◌, ◌++◌, ℕ, Option, None, true, IfOk, OnOk, map};
ghost use Rattle.diagram_meaning.specs.Diagram.{Diagram};
ghost use Rattle.diagram_meaning.specs.Rows as rows;
ghost use Rattle.lustre_syntax.specs.Plain.{equation_tree, expr_tree};
ghost use Rattle.lustre_system.specs.SystemNodes as nodes;
ghost use Rattle.lustre_expressions.specs.Found.{place_in};
ghost use Rattle.lustre_expressions.specs.Scopes.{AreNamesOf};
ghost use Rattle.lustre_row_equations.specs.Placed.{placed_expr, placed_equations};
ghost use Rattle.lustre_system_nodes.specs.States.{level_before, trigger_equations, state_equations};

use base_core::Memory;
use emit_row_code::{active_by, off_by};
use emit_row_facts::is_triggered;
use lustre_expressions::{Naming, RowNames};
use lustre_row_equations::{also, arrow, choice, control_leaves, set, test_value, two};
use lustre_syntax::{LusEq, LusExpr, LusOp};
use std::alloc::Global;

// Whether the system is active: that around it is, and its controls say so.
fn active_value(alloc: Global, names: &RowNames<'_, '_, '_, '_>) -> Result<LusExpr, Memory>
    ensures { IfOk result (λ e. (d : Diagram) (s : Option ℕ) → AreNamesOf names.now d.rows s None →
        expr_tree e ≡ placed_expr names.now (nodes.active_value d s)) }
{
    let around = LusExpr::Name(names.places.place(b"on"));
    let test = active_by(alloc, names.control, control_leaves(names)?)?;
    let test = test_value(alloc, names, test)?;
    Ok(also(alloc, around, test)?)
}

// Whether the system is reset: it is off, or a system around it is.
fn reset_value(alloc: Global, names: &RowNames<'_, '_, '_, '_>) -> Result<LusExpr, Memory>
    ensures { IfOk result (λ e. (d : Diagram) (s : Option ℕ) → AreNamesOf names.now d.rows s None →
        expr_tree e ≡ placed_expr names.now (nodes.reset_value d s)) }
{
    let around = LusExpr::Name(names.places.place(b"off"));
    let test = off_by(alloc, names.control, control_leaves(names)?)?;
    let Some(test) = test_value(alloc, names, test)? else {
        return Ok(around);
    };
    let active = LusExpr::Name(names.places.place(b"on"));
    let off = two(alloc, LusOp::And, active, test)?;
    Ok(two(alloc, LusOp::Or, around, off)?)
}

// The place of the trigger among the names of the node.
fn trigger_place(alloc: Global, names: &RowNames<'_, '_, '_, '_>) -> Result<u32, Memory>
    requires { rows.is_triggered names.now.control ≡ true }
    ensures { IfOk result (λ k. (d : Diagram) (s : Option ℕ) → AreNamesOf names.now d.rows s None →
        k ≡ place_in names.now.places.now (nodes.trigger_input d s)) }
{
    let leaves = control_leaves(names)?;
    Ok(names.leaf_place(alloc, leaves.trigger)?)
}

// The level of the trigger at the tick before: 1 low, 2 high.
fn level(alloc: Global, trigger: u32) -> Result<LusExpr, Memory>
    ensures { IfOk result (λ e. expr_tree e ≡ level_before trigger) }
{
    let high = two(alloc, LusOp::Gt, LusExpr::Pre(trigger), LusExpr::Number(0))?;
    choice(alloc, high, LusExpr::Number(2), LusExpr::Number(1))
}

// What the trigger remembers.
fn trigger_memory(alloc: Global, names: &RowNames<'_, '_, '_, '_>) -> Result<LusExpr, Memory>
    requires { rows.is_triggered names.now.control ≡ true }
    ensures { IfOk result (λ e. (d : Diagram) (s : Option ℕ) → AreNamesOf names.now d.rows s None →
        expr_tree e ≡ placed_expr names.now (nodes.trigger_memory d s)) }
{
    let trigger = trigger_place(alloc, names)?;
    let level = level(alloc, trigger)?;
    let active = LusExpr::Pre(names.places.place(b"on"));
    let before = LusExpr::Pre(names.places.place(b"w"));
    let kept = choice(alloc, active, level, before)?;
    let off = LusExpr::Pre(names.places.place(b"off"));
    let later = choice(alloc, off, LusExpr::Number(0), kept)?;
    Ok(arrow(alloc, LusExpr::Number(0), later)?)
}

// Adds the equation of what the trigger remembers, where there is one.
fn push_trigger(
    alloc: Global,
    names: &RowNames<'_, '_, '_, '_>,
    equations: &mut Vec<LusEq>,
) -> Result<(), Memory>
    ensures { OnOk result ((d : Diagram) (s : Option ℕ) → AreNamesOf names.now d.rows s None →
        map equation_tree equations.new.items ≡ map equation_tree equations.old.items
        ++ placed_equations names.now (trigger_equations d s)) }
{
    if is_triggered(names.control) {
        let place = names.places.place(b"w");
        equations.push(set(place, trigger_memory(alloc, names)?))?;
    }
    Ok(())
}

/// Adds the equations of what the trigger remembers, of whether the system is active, and of whether it is reset.
pub(crate) fn push_states(
    alloc: Global,
    names: &RowNames<'_, '_, '_, '_>,
    equations: &mut Vec<LusEq>,
) -> Result<(), Memory>
    ensures { OnOk result ((d : Diagram) (s : Option ℕ) → AreNamesOf names.now d.rows s None →
        map equation_tree equations.new.items ≡ map equation_tree equations.old.items
        ++ placed_equations names.now (state_equations d s)) }
{
    push_trigger(alloc, names, equations)?;
    let active = names.places.place(b"active");
    equations.push(set(active, active_value(alloc, names)?))?;
    let reset = names.places.place(b"reset");
    equations.push(set(reset, reset_value(alloc, names)?))?;
    Ok(())
}

ghost use Rattle.std.specs.Prelude.{◌≡◌, IfOk, map};
ghost use Rattle.c_syntax.specs.Plain.{expr_tree};
ghost use Rattle.emit_system_spec.specs.Emittable.{IsWritableRow};
ghost use Rattle.emit_system_spec.specs.NodeCode as node;
ghost use Rattle.emit_nodes.specs.Code.{code_of};

use crate::activity::{disabled_test, off_test, runs_test};
use crate::lists::push_code;
use base_core::Memory;
use c_syntax::{Expr, Leaf, Stmt};
use diagram_blocks::Op;
use emit_layout::{Layout, Params};
use emit_row_code::{
    DelayStep, oldest_code, trigger_statements, value_code as rhs_code, value_reset_statements,
    value_statements,
};
use emit_row_facts::row_start;
use modules_profile::LocalRow;
use std::alloc::Global;

/// What a delay remembers from its oldest sample; of no meaning at another row.
///
/// Fails only when memory runs out.
fn memory_read(alloc: Global, layout: &Layout<'_>, row: &LocalRow) -> Result<Expr, Memory>
    requires { IsWritableRow layout.now.local row.now }
    ensures { IfOk result (λ e. expr_tree e ≡ node.memory_read layout.now.local row.now) }
{
    match row.op {
        Op::Line { length, .. } => {
            let ring = layout.ring_fields(row.row);
            oldest_code(alloc, ring, length, row_start(layout.local(), row))
        }
        _ => Ok(Expr::Read(Leaf::Own(layout.memory_field(row.row)))),
    }
}

/// Where a row's inputs are read: of an Inport the parameter, of any other row its wires.
///
/// Fails only when memory runs out.
fn input_leaves(
    alloc: Global,
    layout: &Layout<'_>,
    params: &Params,
    row: &LocalRow,
) -> Result<Vec<Leaf>, Memory>
    ensures { IfOk result
        (λ v. v.items ≡ node.input_leaves layout.now.local params.now row.now) }
{
    if row.kind.is_inport() {
        let mut leaves = Vec::new(alloc);
        leaves.push(params.input_leaf(row.kind.port()))?;
        return Ok(leaves);
    }
    layout.wire_leaves(alloc, row.inputs.wires())
}

/// Where a row's first input is read.
fn first_input(layout: &Layout<'_>, params: &Params, row: &LocalRow) -> Leaf
    ensures { result ≡ node.first_input layout.now.local params.now row.now }
{
    if row.kind.is_inport() {
        return params.input_leaf(row.kind.port());
    }
    match row.inputs.wires().first() {
        Some(wire) => layout.wire_leaf(*wire),
        None => Leaf::Own(0),
    }
}

/// The statements that reset the output of an Outport while its system is disabled.
///
/// Fails only when memory runs out.
fn output_reset(
    alloc: Global,
    layout: &Layout<'_>,
    params: &Params,
    row: &LocalRow,
) -> Result<Vec<Stmt>, Memory>
    requires { IsWritableRow layout.now.local row.now }
    ensures { IfOk result
        (λ v. code_of v.items ≡ node.output_reset layout.now.local params.now row.now) }
{
    if !row.kind.is_reset_outport() {
        return Ok(Vec::new(alloc));
    }
    let field = layout.value_field(row.row);
    let disabled = disabled_test(alloc, layout, params)?;
    value_reset_statements(alloc, field, disabled, row_start(layout.local(), row))
}

/// The statements that store what a row computes, where it runs.
///
/// Fails only when memory runs out.
fn value_store(
    alloc: Global,
    layout: &Layout<'_>,
    params: &Params,
    row: &LocalRow,
) -> Result<Vec<Stmt>, Memory>
    requires { IsWritableRow layout.now.local row.now }
    ensures { IfOk result
        (λ v. code_of v.items ≡ node.value_store layout.now.local params.now row.now) }
{
    let leaves = input_leaves(alloc, layout, params, row)?;
    let types = layout.wire_types(alloc, row.inputs.wires())?;
    let memory = memory_read(alloc, layout, row)?;
    let value = rhs_code(alloc, &row.op, &leaves, &types, memory)?;
    let runs = runs_test(alloc, layout, params, row)?;
    value_statements(alloc, layout.value_field(row.row), runs, value)
}

/// The statements for the value of a row; a row without one has none.
///
/// Fails only when memory runs out.
pub(crate) fn value_code(
    alloc: Global,
    layout: &Layout<'_>,
    params: &Params,
    row: &LocalRow,
) -> Result<Vec<Stmt>, Memory>
    requires { IsWritableRow layout.now.local row.now }
    ensures { IfOk result
        (λ v. code_of v.items ≡ node.value_code layout.now.local params.now row.now) }
{
    if !row.kind.has_value() {
        return Ok(Vec::new(alloc));
    }
    let mut code = output_reset(alloc, layout, params, row)?;
    push_code(&mut code, value_store(alloc, layout, params, row)?)?;
    Ok(code)
}

/// The statements for what a delay remembers.
///
/// Fails only when memory runs out.
pub fn memory_code(
    alloc: Global,
    layout: &Layout<'_>,
    params: &Params,
    row: &LocalRow,
) -> Result<Vec<Stmt>, Memory>
    requires { IsWritableRow layout.now.local row.now }
    ensures { IfOk result
        (λ v. code_of v.items ≡ node.memory_code layout.now.local params.now row.now) }
{
    let runs = runs_test(alloc, layout, params, row)?;
    let input = first_input(layout, params, row);
    let off = off_test(alloc, layout, params)?;
    let step = DelayStep { runs, input, off };
    match row.op {
        Op::Line { length, .. } => step.ring_statements(alloc, layout.ring_fields(row.row), length),
        _ => {
            let start = row_start(layout.local(), row);
            step.memory_statements(alloc, layout.memory_field(row.row), start)
        }
    }
}

/// The statements for what a trigger remembers.
///
/// Fails only when memory runs out.
pub fn trigger_code(
    alloc: Global,
    layout: &Layout<'_>,
    params: &Params,
) -> Result<Vec<Stmt>, Memory>
    ensures { IfOk result
        (λ v. code_of v.items ≡ node.trigger_code layout.now.local params.now) }
{
    let trigger = params.trigger_leaf(layout.local().control);
    trigger_statements(alloc, layout.trigger_field(), trigger)
}

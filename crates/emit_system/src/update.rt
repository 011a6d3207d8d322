ghost use Rattle.std.specs.Prelude.{◌≡◌, All, IfOk, filter, map, if◌then◌else◌};
ghost use Rattle.std.specs.List.{enumerate_from};
ghost use Rattle.diagram_meaning.specs.Rows.{is_triggered as is_triggered_by};
ghost use Rattle.diagram_blocks.specs.Kinds.{is_delay as is_delay_op};
ghost use Rattle.modules_profile.specs.LawfulLocals.{IsChild};
ghost use Rattle.c_syntax.specs.Tree.{no_stmts};
ghost use Rattle.emit_system_spec.specs.EmittedCode as emitted;
ghost use Rattle.emit_system_spec.specs.Emittable.{IsEmittable, IsWritableRow};
ghost use Rattle.emit_system_spec.specs.Groups.{own_count};
ghost use Rattle.emit_system_spec.specs.NodeCode as node;
ghost use Rattle.emit_nodes.specs.Code.{code_of};

use base_core::Memory;
use c_syntax::Stmt;
use emit_layout::{Layout, Params};
use emit_nodes::{memory_code, nodes_code, push_code, reset_code, trigger_code, update_code};
use emit_row_facts::is_triggered;
use emit_starts::counter_stores;
use modules_profile::{ChildUse, LocalRow};
use std::alloc::Global;

/// The statements for what a row remembers; a row that is no delay has none.
fn delay_code(
    alloc: Global,
    layout: &Layout<'_>,
    params: &Params,
    row: &LocalRow,
) -> Result<Vec<Stmt>, Memory>
    requires { IsWritableRow layout.now.local row.now }
    ensures { IfOk result (λ v. code_of v.items ≡ (if is_delay_op row.now.op
        then node.memory_code layout.now.local params.now row.now else no_stmts)) }
{
    if row.op.is_delay() {
        memory_code(alloc, layout, params, row)
    } else {
        Ok(Vec::new(alloc))
    }
}

/// The statements for what rows remember.
fn memories_code(
    alloc: Global,
    layout: &Layout<'_>,
    params: &Params,
    rows: &[LocalRow],
) -> Result<Vec<Stmt>, Memory>
    requires { All (IsWritableRow layout.now.local) rows.now }
    ensures { let local = layout.now.local in IfOk result (λ v. code_of v.items ≡ emitted.joined
        (map (node.memory_code local params.now) (filter (λ r. is_delay_op r.op) rows.now))) }
{
    let mut code = Vec::new(alloc);
    for row in rows {
        push_code(&mut code, delay_code(alloc, layout, params, row)?)?;
    }
    Ok(code)
}

/// The statements that call the updates of children.
fn updates_code(
    alloc: Global,
    layout: &Layout<'_>,
    params: &Params,
    children: &[ChildUse],
) -> Result<Vec<Stmt>, Memory>
    requires emittable { IsEmittable layout.now.local layout.now.schedule }
    requires children { children.now ≡ layout.now.local.children }
    ensures { IfOk result (λ v. code_of v.items ≡ emitted.joined
        (map (node.update_code layout.now.local (own_count layout.now.schedule) params.now)
        (enumerate_from 0 children.now))) }
{
    let mut code = Vec::new(alloc);
    for (place, child) in children.iter().enumerate() {
        push_code(&mut code, update_code(alloc, layout, params, place, child)?)?;
    }
    Ok(code)
}

/// The statements that reset children.
fn resets_code(
    alloc: Global,
    layout: &Layout<'_>,
    params: &Params,
    children: &[ChildUse],
) -> Result<Vec<Stmt>, Memory>
    requires emittable { IsEmittable layout.now.local layout.now.schedule }
    requires children { children.now ≡ layout.now.local.children }
    ensures { IfOk result (λ v. code_of v.items ≡ emitted.joined
        (map (node.reset_code layout.now.local (own_count layout.now.schedule) params.now)
        (enumerate_from 0 children.now))) }
{
    let mut code = Vec::new(alloc);
    for (place, child) in children.iter().enumerate() {
        push_code(&mut code, reset_code(alloc, layout, params, place, child)?)?;
    }
    Ok(code)
}

/// The statements for what the trigger remembers; a system without a trigger has none.
fn level_code(alloc: Global, layout: &Layout<'_>, params: &Params) -> Result<Vec<Stmt>, Memory>
    ensures { IfOk result (λ v. code_of v.items ≡ (if is_triggered_by layout.now.local.control
        then node.trigger_code layout.now.local params.now else no_stmts)) }
{
    if is_triggered(layout.local().control) {
        trigger_code(alloc, layout, params)
    } else {
        Ok(Vec::new(alloc))
    }
}

/// The statements of the update.
///
/// Fails only when memory runs out.
pub(crate) fn update_body(
    alloc: Global,
    layout: &Layout<'_>,
    params: &Params,
) -> Result<Vec<Stmt>, Memory>
    requires { IsEmittable layout.now.local layout.now.schedule }
    ensures { IfOk result (λ v. code_of v.items
        ≡ emitted.update_body layout.now.local layout.now.profile layout.now.schedule params.now) }
{
    let local = layout.local();
    let children = local.children.as_slice();
    let update = layout.schedule().update.numbers();
    let mut body = nodes_code(alloc, layout, params, update)?;
    push_code(
        &mut body,
        memories_code(alloc, layout, params, local.rows.as_slice())?,
    )?;
    push_code(&mut body, updates_code(alloc, layout, params, children)?)?;
    push_code(&mut body, resets_code(alloc, layout, params, children)?)?;
    push_code(&mut body, level_code(alloc, layout, params)?)?;
    push_code(&mut body, counter_stores(alloc, layout)?)?;
    Ok(body)
}

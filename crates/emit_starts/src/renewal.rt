ghost use Rattle.std.specs.Prelude.{◌≡◌, ◌<◌, ◌≤◌, ◌++◌, IfOk, OnOk, length, map};
ghost use Rattle.std.specs.List.{enumerate_from};
ghost use Rattle.modules_profile.specs.LawfulLocals.{IsChild};
ghost use Rattle.c_syntax.specs.Plain.{stmt_tree};
ghost use Rattle.emit_system_spec.specs.Emittable.{IsEmittable};
ghost use Rattle.emit_system_spec.specs.Groups.{own_count};
ghost use Rattle.emit_system_spec.specs.Renewing as renewing;

use crate::stores::{counter_stores, push_memory_starts, push_value_starts};
use base_core::Memory;
use c_syntax::{Stmt, Target};
use emit_layout::Layout;
use modules_profile::ChildUse;
use std::alloc::Global;

// How far the start and the reset of a child come after its update.
const START: u32 = 1;

const RESET: u32 = 2;

/// A call of what is so far after the update of the child at a place.
fn call_behind(
    alloc: Global,
    layout: &Layout<'_>,
    behind: u32,
    place: usize,
    child: &ChildUse,
) -> Stmt
    requires child { IsChild child.now }
    requires place { place < length layout.now.local.children }
    requires behind { behind ≤ 2 }
    ensures { let of = layout.now in stmt_tree result
        ≡ renewing.call_behind of.local (own_count of.schedule) behind (place, child.now) }
{
    Stmt::Call {
        line: 0,
        procedure: layout.update_number(place, child) + behind,
        target: Target::Child(layout.child_field(place)),
        values: Vec::new(alloc),
    }
}

/// Adds a call of what is so far after the update of each child.
fn push_child_calls(
    alloc: Global,
    layout: &Layout<'_>,
    behind: u32,
    body: &mut Vec<Stmt>,
) -> Result<(), Memory>
    requires emittable { IsEmittable layout.now.local layout.now.schedule }
    requires behind { behind ≤ 2 }
    ensures { OnOk result (map stmt_tree body.new.items ≡ map stmt_tree body.old.items
        ++ renewing.child_calls layout.now.local (own_count layout.now.schedule) behind) }
{
    let children = layout.local().children.as_slice();
    for (place, child) in children.iter().enumerate() {
        body.push(call_behind(alloc, layout, behind, place, child))?;
    }
    Ok(())
}

/// The statements of the start.
///
/// Fails only when memory runs out.
pub fn start_body(alloc: Global, layout: &Layout<'_>) -> Result<Vec<Stmt>, Memory>
    requires { IsEmittable layout.now.local layout.now.schedule }
    ensures { let of = layout.now in IfOk result (λ v. map stmt_tree v.items
        ≡ renewing.start_body of.local (own_count of.schedule) of.schedule) }
{
    let mut body = Vec::new(alloc);
    push_value_starts(alloc, layout, &mut body)?;
    push_memory_starts(alloc, layout, &mut body)?;
    push_child_calls(alloc, layout, START, &mut body)?;
    let mut counters = counter_stores(alloc, layout)?;
    body.append(&mut counters)?;
    Ok(body)
}

/// The statements of the reset.
///
/// Fails only when memory runs out.
pub fn reset_body(alloc: Global, layout: &Layout<'_>) -> Result<Vec<Stmt>, Memory>
    requires { IsEmittable layout.now.local layout.now.schedule }
    ensures { IfOk result (λ v. map stmt_tree v.items
        ≡ renewing.reset_body layout.now.local (own_count layout.now.schedule)) }
{
    let mut body = Vec::new(alloc);
    push_memory_starts(alloc, layout, &mut body)?;
    push_child_calls(alloc, layout, RESET, &mut body)?;
    Ok(body)
}

ghost use Rattle.std.specs.Prelude.{◌≡◌, ◌<◌, ◌∷◌, IfOk, length, map};
ghost use Rattle.modules_profile.specs.LawfulLocals.{IsChild};
ghost use Rattle.modules_profile.specs.Locals.{entering as wires_entering};
ghost use Rattle.emit_system_spec.specs.Emittable.{IsEmittable};
ghost use Rattle.emit_system_spec.specs.Groups.{own_count};
ghost use Rattle.emit_system_spec.specs.NodeCode as node;
ghost use Rattle.emit_system_spec.specs.Places.{now_leaf};
ghost use Rattle.emit_system_spec.specs.Sources.{wire_leaf};
ghost use Rattle.emit_nodes.specs.Code.{code_of};

use crate::activity::{active_test, off_test};
use crate::taken::{entering, taken};
use base_core::Memory;
use c_syntax::{Leaf, Stmt};
use emit_layout::{Layout, Params};
use emit_row_code::{call_statements, reset_call_statements};
use modules_profile::ChildUse;
use std::alloc::Global;

/// The leaves of a call: the tick, and what else is passed on.
fn with_now(alloc: Global, params: &Params, others: &[Leaf]) -> Result<Vec<Leaf>, Memory>
    ensures { IfOk result (λ v. v.items ≡ now_leaf params.now ∷ others.now) }
{
    let mut leaves = Vec::new(alloc);
    leaves.push(params.now_leaf())?;
    leaves.extend_from_slice(others)?;
    Ok(leaves)
}

/// The leaves of the wires that enter a child.
fn entering_leaves(
    alloc: Global,
    layout: &Layout<'_>,
    child: &ChildUse,
) -> Result<Vec<Leaf>, Memory>
    ensures { IfOk result
        (λ v. v.items ≡ map (wire_leaf layout.now.local) (wires_entering child.now)) }
{
    let wires = entering(alloc, child)?;
    layout.wire_leaves(alloc, &wires)
}

/// A call of a function, by its number from 1 on, of the child at a place.
#[derive(Clone, Copy, Drop)]
pub(crate) struct ChildCall<'a> {
    pub(crate) place: usize,
    pub(crate) child: &'a ChildUse,
    pub(crate) function: u8,
}

impl<'a> ChildCall<'a> {
    /// The statements that make the call.
    ///
    /// Fails only when memory runs out.
    pub(crate) fn code(
        &self,
        alloc: Global,
        layout: &Layout<'_>,
        params: &Params,
    ) -> Result<Vec<Stmt>, Memory>
        requires emittable { IsEmittable layout.now.local layout.now.schedule }
        requires child { IsChild self.now.child.now }
        requires place { self.now.place < length layout.now.local.children }
        ensures { let of = layout.now in let called = self.now in IfOk result (λ v. code_of v.items
            ≡ node.call_code of.local (own_count of.schedule) params.now called.place
            called.child.now called.function) }
    {
        let entering = entering_leaves(alloc, layout, self.child)?;
        let taken = taken(alloc, &self.child.header, self.function, &entering)?;
        let leaves = with_now(alloc, params, &taken)?;
        let active = active_test(alloc, layout, params)?;
        let procedure = layout.child_base(self.place) + u32::from(self.function).saturating_sub(1);
        call_statements(
            alloc,
            active,
            procedure,
            layout.child_field(self.place),
            &leaves,
        )
    }
}

/// The statements that call the update of the child at a place.
///
/// Fails only when memory runs out.
pub fn update_code(
    alloc: Global,
    layout: &Layout<'_>,
    params: &Params,
    place: usize,
    child: &ChildUse,
) -> Result<Vec<Stmt>, Memory>
    requires child { IsChild child.now }
    requires place { place < length layout.now.local.children }
    ensures { let of = layout.now in IfOk result (λ v. code_of v.items
        ≡ node.update_code of.local (own_count of.schedule) params.now (place, child.now)) }
{
    let entering = entering_leaves(alloc, layout, child)?;
    let leaves = with_now(alloc, params, &entering)?;
    let active = active_test(alloc, layout, params)?;
    let procedure = layout.update_number(place, child);
    call_statements(alloc, active, procedure, layout.child_field(place), &leaves)
}

/// The statements that reset the child at a place.
///
/// Fails only when memory runs out.
pub fn reset_code(
    alloc: Global,
    layout: &Layout<'_>,
    params: &Params,
    place: usize,
    child: &ChildUse,
) -> Result<Vec<Stmt>, Memory>
    requires child { IsChild child.now }
    requires place { place < length layout.now.local.children }
    ensures { let of = layout.now in IfOk result (λ v. code_of v.items
        ≡ node.reset_code of.local (own_count of.schedule) params.now (place, child.now)) }
{
    let off = off_test(alloc, layout, params)?;
    let procedure = layout.update_number(place, child) + 2;
    reset_call_statements(alloc, off, procedure, layout.child_field(place))
}

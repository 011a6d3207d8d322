// The instances of a file, in the order of their paths.
ghost use Rattle.std.specs.Prelude.{◌≡◌, ◌++◌, IfOk, OnOk, reverse};
ghost use Rattle.lustre_syntax.specs.Lawful.{IsLawful};
ghost use Rattle.lustre_syntax.specs.Plain.{file_tree};
ghost use Rattle.lustre_slots.specs.Layout.{IsThere, calls_in, instances_of};

use crate::extents::{extent_at, sum};
use crate::placed::Placed;
use crate::plan::Plan;
use base_core::Memory;
use lustre_syntax::LusEq;
use std::alloc::Global;

// Adds the instances of the calls of an instance, the last one first.
fn add_calls(plan: &Plan, of: Placed, pending: &mut Vec<Placed>) -> Result<(), Memory>
    requires lawful { IsLawful (file_tree plan.now.file.now) }
    requires there { IsThere (file_tree plan.now.file.now) of }
    ensures { OnOk result
        (pending.new.items ≡ pending.old.items ++ reverse (calls_in (file_tree plan.now.file.now) of)) }
{
    let equations = plan.equations(of.node);
    let mut at = sum(of.base, plan.size(of.node))?;
    let mut left = equations.len();
    while left > 0 {
        left -= 1;
        if let LusEq::Call { node, .. } = &equations[left] {
            at -= plan.size(*node as usize);
            pending.push(Placed {
                node: *node as usize,
                base: at,
            })?;
        }
    }
    Ok(())
}

/// The instances of a file, in the order of their paths.
pub(crate) fn instances_of(alloc: Global, plan: &Plan) -> Result<Vec<Placed>, Memory>
    requires { IsLawful (file_tree plan.now.file.now) }
    ensures { IfOk result (λ v. v.items ≡ instances_of (file_tree plan.now.file.now)) }
{
    let root = plan.root();
    let mut instances = Vec::with_capacity(alloc, extent_at(plan.extents, root.node).instances)?;
    let mut pending = Vec::new(alloc);
    pending.push(root)?;
    while let Some(next) = pending.pop() {
        instances.push(next)?;
        add_calls(plan, next, &mut pending)?;
    }
    Ok(instances)
}

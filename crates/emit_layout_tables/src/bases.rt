ghost use Rattle.std.specs.Prelude.{◌≡◌, ◌+◌, ◌<◌, ◌^◌, IfOk, length, map, sum_by, take};
ghost use Rattle.std.specs.List.{range_with_len};
ghost use Rattle.modules_profile.specs.Headers.{header_functions};
ghost use Rattle.emit_system_spec.specs.Emittable.{IsEmittable};
ghost use Rattle.emit_system_spec.specs.Groups as procedures;
ghost use Rattle.emit_system_spec.specs.Places as places;

use crate::places::function_count;
use base_core::Memory;
use modules_profile::{ChildUse, Local};
use modules_schedule::Schedule;
use std::alloc::Global;

/// The number of the first procedure of each child, after the procedures of these groups and the
/// other own ones.
pub(crate) fn bases_behind(
    alloc: Global,
    groups: &[u32],
    local: &Local,
    schedule: &Schedule,
) -> Result<Vec<u32>, Memory>
    requires groups { groups.now ≡ procedures.code_groups schedule.now }
    requires emittable { IsEmittable local.now schedule.now }
    ensures { IfOk result (λ v. v.items ≡
        map (places.child_base local.now (procedures.own_count schedule.now))
        (range_with_len 0 (length local.now.children + 1))) }
{
    let own = (groups.len() + schedule.functions.len() + 3) as u32;
    child_bases(alloc, own, local)
}

// The number of the first procedure of each child, and of what would follow the last one, where so many are the
// system's own.
fn child_bases(alloc: Global, count: u32, local: &Local) -> Result<Vec<u32>, Memory>
    requires { places.child_base local.now count (length local.now.children) < 2 ^ 32 }
    ensures { IfOk result (λ v. v.items
        ≡ map (places.child_base local.now count)
        (range_with_len 0 (length local.now.children + 1))) }
{
    bases_of(alloc, count, local.children.as_slice())
}

fn bases_of(alloc: Global, count: u32, children: &[ChildUse]) -> Result<Vec<u32>, Memory>
    requires { count + sum_by (λ u. length (header_functions u.header) + 3) children.now < 2 ^ 32 }
    ensures { IfOk result (λ v. v.items
        ≡ map (λ k. count + sum_by (λ u. length (header_functions u.header) + 3)
        (take k children.now)) (range_with_len 0 (length children.now + 1))) }
{
    let mut bases = Vec::new(alloc);
    let mut next = count;
    bases.push(next)?;
    for child in children {
        next += function_count(child) as u32 + 3;
        bases.push(next)?;
    }
    Ok(bases)
}

ghost use Rattle.std.specs.Prelude.{◌≡◌, ◌+◌, ◌<◌, ◌^◌, ◌==◌, ℕ, [], IfOk, count_by, filter, length, min, slice_index, slice_index_or};
ghost use Rattle.std.specs.List.{range_with_len};
ghost use Rattle.emit_system_spec.specs.Fields.{call_count, shared_groups as groups_with_counters};
ghost use Rattle.emit_system_spec.specs.Groups.{code_groups as groups_with_code, has_some};

use base_core::Memory;
use modules_schedule::{NodeList, Schedule};
use std::alloc::Global;

/// The groups that more than one function calls, found in one pass over the calls.
pub(crate) fn shared_groups(alloc: Global, schedule: &Schedule) -> Result<Vec<u32>, Memory>
    requires { length schedule.now.groups < 2 ^ 32 }
    ensures { IfOk result (λ v. v.items ≡ groups_with_counters schedule.now) }
{
    let calls = call_counts(alloc, schedule)?;
    let mut shared = Vec::new(alloc);
    for (group, count) in calls.iter().enumerate() {
        if *count > 1 {
            shared.push(group as u32)?;
        }
    }
    Ok(shared)
}

// How often functions call each group, as far as the counts go: one above 1 stays above 1.
fn call_counts(alloc: Global, schedule: &Schedule) -> Result<Vec<u8>, Memory>
    ensures length { IfOk result (λ v. length v.items ≡ length schedule.now.groups) }
    ensures counts { IfOk result (λ v. (g : ℕ) → g < length schedule.now.groups →
        min (slice_index v.items g) 2 ≡ min (call_count schedule.now g) 2) }
{
    let mut counts = vec![in alloc; 0; schedule.groups.len()]?;
    for groups in &schedule.functions {
        count_calls(groups.numbers(), &mut counts);
    }
    Ok(counts)
}

// Counts the calls of these groups, as far as the counts go.
fn count_calls(groups: &[u32], counts: &mut [u8])
    ensures { (g : ℕ) → g < length counts.old →
        min (slice_index counts.new g) 2
        ≡ min (slice_index counts.old g + count_by (λ called. called == g) groups.now) 2 }
{
    for group in groups {
        let group = *group as usize;
        if group < counts.len() {
            counts[group] = counts[group].saturating_add(1);
        }
    }
}

/// The groups that have nodes.
pub(crate) fn code_groups(alloc: Global, schedule: &Schedule) -> Result<Vec<u32>, Memory>
    requires { length schedule.now.groups < 2 ^ 32 }
    ensures { IfOk result (λ v. v.items ≡ groups_with_code schedule.now) }
{
    groups_with_nodes(alloc, schedule.groups.as_slice())
}

fn groups_with_nodes(alloc: Global, groups: &[NodeList]) -> Result<Vec<u32>, Memory>
    requires { length groups.now < 2 ^ 32 }
    ensures { IfOk result (λ v. v.items ≡ filter (λ g. has_some (slice_index_or groups.now g []))
        (range_with_len 0 (length groups.now))) }
{
    let mut found = Vec::new(alloc);
    for (group, nodes) in groups.iter().enumerate() {
        if !nodes.numbers().is_empty() {
            found.push(group as u32)?;
        }
    }
    Ok(found)
}

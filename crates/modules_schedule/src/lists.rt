ghost use Rattle.std.specs.Prelude.{◌≡◌, ◌<◌, ◌≤◌, ◌==◌, ◌^◌, [], All, IfOk, not, bit_and, filter, length, map, replicate, slice_index};
ghost use Rattle.std.specs.List.{range_with_len};
ghost use Rattle.modules_schedule.specs.Scheduling.{is_unheld as is_unheld_group, nodes_of_group, groups_holding};

use crate::NodeList;
use base_core::Memory;
use modules_clusters::Groups;
use std::alloc::Global;

/// The nodes of each group in the order that is given, none where no function holds them.
pub(crate) fn nodes_by_group(
    alloc: Global,
    order: &[u32],
    g: &Groups,
) -> Result<Vec<NodeList>, Memory>
    requires nodes { All (λ k. k < length g.now.of) order.now }
    requires groups { All (λ group. group < length g.now.holds) g.now.of }
    ensures { IfOk result (λ v. v.items
        ≡ map (nodes_of_group order.now g.now) (range_with_len 0 (length g.now.holds))) }
{
    let mut lists = empty_lists(alloc, g.holds.len())?;
    for k in order {
        let group = g.of[*k as usize];
        if g.holds[group as usize] != 0 {
            lists[group as usize].push(*k)?;
        }
    }
    Ok(lists)
}

// So many empty lists.
fn empty_lists(alloc: Global, count: usize) -> Result<Vec<NodeList>, Memory>
    ensures { IfOk result (λ v. v.items ≡ replicate count []) }
{
    let mut lists = Vec::new(alloc);
    for _k in 0..count {
        lists.push(NodeList::new(alloc))?;
    }
    Ok(lists)
}

/// The groups that each of so many functions holds, by number, by the sets of functions that hold each group.
pub(crate) fn groups_by_function(
    alloc: Global,
    holds: &[u64],
    count: u32,
) -> Result<Vec<NodeList>, Memory>
    requires numbered { length holds.now ≤ 2 ^ 32 }
    requires few { count ≤ 32 }
    ensures { IfOk result (λ v. v.items ≡ map (groups_holding holds.now) (range_with_len 0 count)) }
{
    let mut lists = Vec::new(alloc);
    for j in 0..count {
        lists.push(groups_of_function(alloc, holds, j)?)?;
    }
    Ok(lists)
}

// The groups that function `j`, from 0, holds, by number.
fn groups_of_function(alloc: Global, holds: &[u64], j: u32) -> Result<NodeList, Memory>
    requires numbered { length holds.now ≤ 2 ^ 32 }
    requires function { j < 32 }
    ensures { IfOk result (λ list. list ≡ groups_holding holds.now j) }
{
    let mut list = NodeList::new(alloc);
    for group in 0..holds.len() {
        if holds[group] & (1 << j) != 0 {
            list.push(group as u32)?;
        }
    }
    Ok(list)
}

/// The nodes that no function holds, in the order that is given.
pub(crate) fn unheld_nodes(alloc: Global, order: &[u32], g: &Groups) -> Result<NodeList, Memory>
    requires nodes { All (λ k. k < length g.now.of) order.now }
    requires groups { All (λ group. group < length g.now.holds) g.now.of }
    ensures { IfOk result (λ list. list
        ≡ filter (λ k. is_unheld_group g.now (slice_index g.now.of k)) order.now) }
{
    let mut list = NodeList::new(alloc);
    for k in order {
        let group = g.of[*k as usize];
        if g.holds[group as usize] == 0 {
            list.push(*k)?;
        }
    }
    Ok(list)
}

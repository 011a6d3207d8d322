ghost use Rattle.std.specs.Prelude.{◌≡◌, ◌≤◌, ◌==◌, ◌^◌, ℕ, IfOk, IsPermutation, length, map};
ghost use Rattle.std.specs.BTreeMap.{get};
ghost use Rattle.std.specs.List.{position_from};
ghost use Rattle.std.specs.Ordering.{nat_cmp};
ghost use Rattle.base_core.specs.Interface.{different};
ghost use Rattle.modules_clusters.specs.Classes.{place_of};
ghost use Rattle.modules_clusters.specs.Grouping.{AreDifferent, AreGroups, AreInOrder};

use base_core::Memory;
use std::alloc::Global;
use std::cmp::Reverse;
use std::collections::{BTreeMap, BTreeSet};
use std::marker::Model;

/// The group of each node, and for each group the functions that hold it: bit j for function j + 1.
#[derive(Drop)]
pub struct Groups {
    /// The group of each node.
    pub of: Vec<u32>,
    /// The set of functions that hold each group: bit j for function j + 1.
    pub holds: Vec<u64>,
}

impl Model for Groups {
    ghost use Rattle.modules_clusters.specs.NodeGroups.{NodeGroups};

    ghost Value = { NodeGroups };

    ghost view = { λ g. record { of = g.of.items; holds = g.holds.items } };
}

/// The groups of nodes, by the functions that hold each node: nodes with equal sets are in one group. Groups are ordered by
/// falling number of functions, and then by the least node of each.
///
/// In time linear in nodes times a logarithm.
pub fn groups_of(alloc: Global, holds: &[u64]) -> Result<Groups, Memory>
    requires { length holds.now ≤ 2 ^ 32 }
    ensures { IfOk result (λ g. AreGroups holds.now g) }
{
    let holds_of_groups = ordered_sets(alloc, holds)?;
    let of = places(alloc, holds, &holds_of_groups)?;
    Ok(Groups {
        of,
        holds: holds_of_groups,
    })
}

// The different sets, by falling number of functions, and then by the least node.
fn ordered_sets(alloc: Global, holds: &[u64]) -> Result<Vec<u64>, Memory>
    ensures sets { IfOk result (λ v. IsPermutation (different holds.now) v.items) }
    ensures in_order { IfOk result (λ v. AreInOrder holds.now v.items) }
{
    let mut sets = different_sets(alloc, holds)?;
    sets.sort_by_key(|set| Reverse(set.count_ones()))?;
    Ok(sets)
}

// The different sets, by the least node.
fn different_sets(alloc: Global, holds: &[u64]) -> Result<Vec<u64>, Memory>
    ensures { IfOk result (λ v. v.items ≡ different holds.now) }
{
    let mut seen = BTreeSet::new(alloc);
    let mut sets = Vec::new(alloc);
    for set in holds {
        if seen.insert(*set)? {
            sets.push(*set)?;
        }
    }
    Ok(sets)
}

// For each node the place of its set.
fn places(alloc: Global, holds: &[u64], sets: &[u64]) -> Result<Vec<u32>, Memory>
    requires few { length sets.now ≤ 2 ^ 32 }
    requires in_order { AreInOrder holds.now sets.now }
    ensures { IfOk result (λ v. v.items ≡ map (place_of sets.now) holds.now) }
{
    let ranks = ranks(alloc, sets)?;
    let mut of = Vec::new(alloc);
    for set in holds {
        of.push(ranks.get(set).copied().unwrap_or(0))?;
    }
    Ok(of)
}

// The place of each set.
fn ranks(alloc: Global, sets: &[u64]) -> Result<BTreeMap<u64, u32>, Memory>
    requires few { length sets.now ≤ 2 ^ 32 }
    requires different { AreDifferent sets.now }
    ensures { IfOk result (λ ranks. (x : ℕ) →
        get nat_cmp ranks x ≡ position_from (λ y. y == x) 0 sets.now) }
{
    let mut ranks = BTreeMap::new(alloc);
    for (rank, set) in sets.iter().enumerate() {
        ranks.insert(*set, rank as u32)?;
    }
    Ok(ranks)
}

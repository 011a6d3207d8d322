ghost use Rattle.std.specs.Prelude.{◌≡◌, ℕ, ◌+◌, ◌<◌, ◌≤◌, List, [], ◌∷◌, ◌++◌, ◌⊎◌, ◌↔◌, length, IfOk, OnOk, Contains, slice_index, sum_by};
ghost use Rattle.base_graph.specs.Counts.{edges_between};
ghost use Rattle.base_graph.specs.EdgeChains.{AreChains};
ghost use Rattle.base_graph.specs.Placing.{AreUnmet, ArePlaced};

use crate::Graph;
use crate::chains::{Chains, chains_of};
use crate::ready::{add, ready_nodes, take_least};
use base_core::Memory;
use std::alloc::Global;
use std::collections::BTreeSet;

/// Places nodes for as long as one may be next, the least of these each time, and takes the needs that are met from the counts.
pub fn place(alloc: Global, g: &Graph, unmet: &mut Vec<usize>) -> Result<Vec<u32>, Memory>
    requires { AreUnmet g.now [] unmet.old.items }
    ensures { IfOk result (λ v. ArePlaced g.now v.items unmet.new.items) }
{
    let chains = chains_of(alloc, g)?;
    let mut ready = ready_nodes(alloc, unmet, g.n)?;
    let mut placed = Vec::new(alloc);
    while let Some(x) = take_least(&mut ready) {
        placed.push(x)?;
        release(g, &chains, x, unmet, &mut ready)?;
    }
    Ok(placed)
}

/// Takes the needs of `x` from the counts; the nodes that need nothing more are ready.
fn release(
    g: &Graph,
    chains: &Chains,
    x: u32,
    unmet: &mut Vec<usize>,
    ready: &mut BTreeSet<u32>,
) -> Result<(), Memory>
    requires node { x < g.now.n }
    requires chained { AreChains g.now chains.now.last.items chains.now.before.items }
    requires len { length unmet.old.items ≡ g.now.n }
    requires counted { (b : ℕ) → edges_between g.now.edges x b ≤ slice_index unmet.old.items b }
    ensures unmet { OnOk result ((b : ℕ) → slice_index unmet.new.items b
        + edges_between g.now.edges x b ≡ slice_index unmet.old.items b) }
    ensures ready { OnOk result ((b : ℕ) →
        Contains ready.new.keys b
        ↔ (Contains ready.old.keys b
        ⊎ ((0 < edges_between g.now.edges x b) × (slice_index unmet.new.items b ≡ 0)))) }
    ensures len { OnOk result (length unmet.new.items ≡ g.now.n) }
    ensures falls { OnOk result (length ready.new.keys + sum_by (λ count. count) unmet.new.items
        ≤ length ready.old.keys + sum_by (λ count. count) unmet.old.items) }
{
    let mut at = chains.last[x as usize];
    while at > 0 {
        let b = g.edges[at - 1].1;
        let left = unmet[b as usize] - 1;
        unmet[b as usize] = left;
        if left == 0 {
            add(ready, b)?;
        }
        at = chains.before[at - 1];
    }
    Ok(())
}

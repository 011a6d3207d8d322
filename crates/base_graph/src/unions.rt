ghost use Rattle.std.specs.Prelude.{◌≡◌, ◌≢◌, ℕ, ◌+◌, ◌<◌, ◌≤◌, List, [], ◌∷◌, ◌++◌, ◌↔◌, length, IfOk, OnOk, IsTrue, All, Contains, slice_index, slice_set, bit_or, sum_by};
ghost use Rattle.base_graph.specs.EdgeChains.{AreChains};
ghost use Rattle.base_graph.specs.Masks.{AreMasks};
ghost use Rattle.base_graph.specs.Spread.{IsSpread};

use crate::Graph;
use crate::chains::{Chains, chains_of};
use base_core::Memory;
use std::alloc::Global;

/// For each node the union of the sources of all nodes that reach it, its own too.
///
/// `source` has a mask for each node. A node is looked at again when its mask grew, so at most 64 times.
pub fn masks(alloc: Global, g: &Graph, source: &[u64]) -> Result<Vec<u64>, Memory>
    requires { length source.now ≡ g.now.n }
    ensures { IfOk result (λ v. AreMasks g.now source.now v.items) }
{
    let chains = chains_of(alloc, g)?;
    let mut waiting = nodes(alloc, g.n)?;
    let mut masks = Vec::from_slice(alloc, source)?;
    while let Some(a) = waiting.pop() {
        spread(g, &chains, a, &mut masks, &mut waiting)?;
    }
    Ok(masks)
}

/// All nodes of a graph of `n`.
///
/// Fails only when memory runs out.
pub fn nodes(alloc: Global, n: u32) -> Result<Vec<u32>, Memory>
    ensures { IfOk result (λ v. All (λ a. a < n) v.items × ((a : ℕ) → a < n → Contains v.items a)) }
{
    let mut nodes = Vec::new(alloc);
    for a in 0..n {
        nodes.push(a)?;
    }
    Ok(nodes)
}

/// Adds the mask of `a` to the masks of the nodes that need it; those that grew wait.
fn spread(
    g: &Graph,
    chains: &Chains,
    a: u32,
    masks: &mut [u64],
    waiting: &mut Vec<u32>,
) -> Result<(), Memory>
    requires node { a < g.now.n }
    requires chained { AreChains g.now chains.now.last.items chains.now.before.items }
    requires len { length masks.old ≡ g.now.n }
    ensures spread { OnOk result ((source : List ℕ) →
        IsSpread g.now source masks.old (waiting.old.items ++ a ∷ []) 0 0 →
        IsSpread g.now source masks.new waiting.new.items 0 0) }
    ensures grown { OnOk result (length waiting.new.items + sum_by (λ mask. mask) masks.old
        ≤ length waiting.old.items + sum_by (λ mask. mask) masks.new) }
{
    let mut at = chains.last[a as usize];
    while at > 0 {
        let b = g.edges[at - 1].1;
        if absorb(masks, b as usize, a as usize) {
            waiting.push(b)?;
        }
        at = chains.before[at - 1];
    }
    Ok(())
}

/// Adds the mask of `a` to that of `b`, and says whether that grew.
fn absorb(masks: &mut [u64], b: usize, a: usize) -> bool
    requires b_in { b < length masks.old }
    requires a_in { a < length masks.old }
    ensures after { masks.new
        ≡ slice_set masks.old b (bit_or (slice_index masks.old b) (slice_index masks.old a)) }
    ensures grew { IsTrue result
        ↔ (bit_or (slice_index masks.old b) (slice_index masks.old a) ≢ slice_index masks.old b) }
{
    let grown = masks[b] | masks[a];
    let grew = grown != masks[b];
    masks[b] = grown;
    grew
}

ghost use Rattle.std.specs.Prelude.{◌≡◌, IfOk, replicate};
ghost use Rattle.base_graph.specs.EdgeChains.{AreChains};

use crate::Graph;
use base_core::Memory;
use std::alloc::Global;

/// The edges that lead away from each node, as chains through the list of edges: places count from 1, and 0 ends a chain.
#[derive(Drop)]
pub struct Chains {
    /// For each node the place of the last edge that leads away from it.
    pub last: Vec<usize>,
    /// For each edge the place of the last edge before it from the same node.
    pub before: Vec<usize>,
}

/// The chains of a graph, in time linear in nodes and edges.
#[tactic(auto, using(crate::proofs::ChainSteps::chains_step))]
pub fn chains_of(alloc: Global, g: &Graph) -> Result<Chains, Memory>
    ensures { IfOk result (λ o. AreChains g.now o.last.items o.before.items) }
{
    let mut last = zeros(alloc, g.n)?;
    let mut before = Vec::new(alloc);
    for (k, edge) in g.edges.iter().enumerate() {
        let a = edge.0 as usize;
        before.push(last[a])?;
        last[a] = k + 1;
    }
    Ok(Chains { last, before })
}

pub fn zeros(alloc: Global, n: u32) -> Result<Vec<usize>, Memory>
    ensures { IfOk result (λ v. v.items ≡ replicate n 0) }
{
    Ok(vec![in alloc; 0; n as usize]?)
}

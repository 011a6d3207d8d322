ghost use Rattle.std.specs.Prelude.{◌≡◌, ◌<◌, All, IfOk, length};
ghost use Rattle.modules_clusters.specs.ClassBits.{turned, AreClassBits};
ghost use Rattle.modules_clusters.specs.Clusters.{AreClusters};

use base_core::Memory;
use base_graph::{Graph, masks};
use std::alloc::Global;

/// For each node the classes with an output that it reaches: bit c for class c. `class` has the class of each output.
pub fn clusters(
    alloc: Global,
    g: &Graph,
    outputs: &[u32],
    class: &[u32],
) -> Result<Vec<u64>, Memory>
    requires len { length class.now ≡ length outputs.now }
    requires nodes { All (λ o. o < g.now.n) outputs.now }
    requires classes { All (λ c. c < 32) class.now }
    ensures { IfOk result (λ v. AreClusters g.now outputs.now class.now v.items) }
{
    let turned = turn(alloc, g)?;
    let bits = class_bits(alloc, g.n, outputs, class)?;
    masks(alloc, &turned, &bits)
}

// The graph with each edge turned round.
fn turn(alloc: Global, g: &Graph) -> Result<Graph, Memory>
    ensures { IfOk result (λ t. t ≡ turned g.now) }
{
    let mut edges = Vec::new(alloc);
    for (a, b) in g.edges.iter() {
        edges.push((*b, *a))?;
    }
    Ok(Graph { n: g.n, edges })
}

// For each node the classes of the outputs that it is.
fn class_bits(alloc: Global, n: u32, outputs: &[u32], class: &[u32]) -> Result<Vec<u64>, Memory>
    requires len { length class.now ≡ length outputs.now }
    requires nodes { All (λ o. o < n) outputs.now }
    requires classes { All (λ c. c < 32) class.now }
    ensures { IfOk result (λ v. AreClassBits n outputs.now class.now (length outputs.now) v.items) }
{
    let mut bits = vec![in alloc; 0; n as usize]?;
    for i in 0..outputs.len() {
        bits[outputs[i] as usize] |= 1 << class[i];
    }
    Ok(bits)
}

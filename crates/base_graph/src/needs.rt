ghost use Rattle.std.specs.Prelude.{[], IfOk, IfErr, OnOk};
ghost use Rattle.base_graph.specs.OneOrder.{IsOrder};
ghost use Rattle.base_graph.specs.Reaching.{HasNoCycle};
ghost use Rattle.base_graph.specs.Placing.{AreUnmet};
ghost use Rattle.base_graph.specs.Faults.{TellsCycle};

use crate::chains::zeros;
use crate::cycles::{find_cycle, first_blocked};
use crate::one_order::place;
use crate::{Graph, OrderFault};
use base_core::Memory;
use std::alloc::Global;

/// The one order of the nodes: each node once, after what it needs, and at each place the least node that may be there.
///
/// In time linear in edges and in nodes times a logarithm.
pub fn order(alloc: Global, g: &Graph) -> Result<Vec<u32>, OrderFault>
    ensures is_order { IfOk result (λ v. IsOrder g.now v.items) }
    ensures no_cycle { OnOk result (HasNoCycle g.now) }
    ensures cycle { IfErr result (TellsCycle g.now) }
{
    let mut unmet = count_needs(alloc, g)?;
    let placed = place(alloc, g, &mut unmet)?;
    match first_blocked(&unmet, g.n) {
        None => Ok(placed),
        Some(b) => Err(OrderFault::Cycle(find_cycle(alloc, g, &unmet, b)?)),
    }
}

/// For each node the number of edges that say what it needs.
fn count_needs(alloc: Global, g: &Graph) -> Result<Vec<usize>, Memory>
    ensures { IfOk result (λ unmet. AreUnmet g.now [] unmet.items) }
{
    let mut unmet = zeros(alloc, g.n)?;
    for edge in g.edges.iter() {
        unmet[edge.1 as usize] += 1;
    }
    Ok(unmet)
}

ghost use Rattle.std.specs.Prelude.{IfOk, MatchOption};
ghost use Rattle.diagram_meaning.specs.Needs.{needs_of, HasNoLoop, IsLeastLoop};
ghost use Rattle.diagram_meaning.specs.ResolvedTree.{diagram_of};
ghost use Rattle.diagram_needs.specs.Needed.{needed};

use crate::least_loop::least_loop;
use crate::least_row::least_on_loop;
use crate::needs_graph::needs_graph;
use base_core::Memory;
use base_graph::{Graph, OrderFault, order};
use diagram_meaning::Resolved;
use std::alloc::Global;

/// The loop of rows, each of which needs the next and the last the first, that a refusal reports: it begins with the least
/// row on any loop, is a shortest one through it, and is the first of these in order. None where there is no loop.
///
/// In time linear in rows and wires, except the logarithm of the queue that an order is found by.
pub fn find_loop(alloc: Global, r: &Resolved) -> Result<Option<Vec<u32>>, Memory>
    ensures { IfOk result (λ found. MatchOption found (HasNoLoop (needs_of (diagram_of r.now)))
        (λ loop. IsLeastLoop (needs_of (diagram_of r.now)) loop.items)) }
{
    let g = needs_graph(alloc, r, None)?;
    find_in(alloc, &g)
}

/// The loop that [`find_loop`] reports, in a graph whose edges lead from what is needed to what needs it.
pub fn find_in(alloc: Global, g: &Graph) -> Result<Option<Vec<u32>>, Memory>
    ensures { IfOk result
        (λ found. MatchOption found (HasNoLoop (needed g.now))
        (λ loop. IsLeastLoop (needed g.now) loop.items)) }
{
    match order(alloc, g) {
        Ok(_) => Ok(None),
        Err(OrderFault::Memory) => Err(Memory),
        Err(OrderFault::Cycle(_)) => search(alloc, g),
    }
}

// The same, where an order was not found.
fn search(alloc: Global, g: &Graph) -> Result<Option<Vec<u32>>, Memory>
    ensures { IfOk result
        (λ found. MatchOption found (HasNoLoop (needed g.now))
        (λ loop. IsLeastLoop (needed g.now) loop.items)) }
{
    match least_on_loop(alloc, g)? {
        None => Ok(None),
        Some(row) => Ok(Some(least_loop(alloc, g, row)?)),
    }
}

ghost use Rattle.std.specs.Prelude.{◌≡◌, ◌++◌, ◌==◌, ◌<◌, ◌^◌, ◌↔◌, ℕ, Some, Contains, IfOk, OnOk, filter_map, if◌then◌else◌, length, nat_eq};
ghost use Rattle.std.specs.List.{list_any};
ghost use Rattle.indexmap.specs.IndexMap.{get};
ghost use Rattle.base_graph.specs.NeedsGraph.{IsGraph};
ghost use Rattle.modules_profile.specs.NodeWires.{AreGivenOnce, AreGivers, edge_by, edges_from, IsEdge};

use crate::node_wires::NodeWires;
use base_core::Memory;
use base_graph::Graph;
use indexmap::IndexMap;
use std::alloc::Global;

/// Wires, each with the place of a node that gives it.
type Givers = IndexMap<u32, u32>;

/// The graph of nodes with these wires, in which each needs those that give what it needs.
pub(crate) fn node_graph(alloc: Global, nodes: &[NodeWires]) -> Result<Graph, Memory>
    requires few { length nodes.now < 2 ^ 32 }
    requires once { AreGivenOnce nodes.now }
    ensures count { IfOk result (λ g. g.n ≡ length nodes.now) }
    ensures inside { IfOk result IsGraph }
    ensures edges { IfOk result (λ g. (a b : ℕ) → Contains g.edges (a, b) ↔ IsEdge nodes.now a b) }
{
    let givers = givers(alloc, nodes)?;
    let edges = edges(alloc, &givers, nodes)?;
    Ok(Graph {
        n: nodes.len() as u32,
        edges,
    })
}

// An edge to each node from those that give what it needs.
fn edges(alloc: Global, givers: &Givers, nodes: &[NodeWires]) -> Result<Vec<(u32, u32)>, Memory>
    requires { length nodes.now < 2 ^ 32 }
    ensures { IfOk result (λ v. v.items ≡ edges_from (get nat_eq givers.now) 0 nodes.now) }
{
    let mut edges = Vec::new(alloc);
    for (b, node) in nodes.iter().enumerate() {
        push_edges(givers, node.needs.wires(), b as u32, &mut edges)?;
    }
    Ok(edges)
}

// Adds the edges that lead to node `b`, which needs these wires.
fn push_edges(
    givers: &Givers,
    needs: &[u32],
    b: u32,
    edges: &mut Vec<(u32, u32)>,
) -> Result<(), Memory>
    ensures { OnOk result (edges.new.items
        ≡ edges.old.items ++ filter_map (edge_by (get nat_eq givers.now) b) needs.now) }
{
    for wire in needs {
        if let Some(a) = givers.get(wire) {
            edges.push((*a, b))?;
        }
    }
    Ok(())
}

// The table of what gives the wires.
fn givers(alloc: Global, nodes: &[NodeWires]) -> Result<Givers, Memory>
    requires { length nodes.now < 2 ^ 32 }
    ensures { IfOk result (λ givers. AreGivers nodes.now (get nat_eq givers)) }
{
    let mut givers = IndexMap::new(alloc);
    for (a, node) in nodes.iter().enumerate() {
        insert_all(&mut givers, node.gives.wires(), a as u32)?;
    }
    Ok(givers)
}

// Node `a` gives these wires.
fn insert_all(givers: &mut Givers, gives: &[u32], a: u32) -> Result<(), Memory>
    ensures { OnOk result ((c : ℕ) →
        get nat_eq givers.new c
        ≡ (if list_any (λ d. d == c) gives.now then Some a else get nat_eq givers.old c)) }
{
    for wire in gives {
        givers.insert(*wire, a)?;
    }
    Ok(())
}

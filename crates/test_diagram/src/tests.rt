ghost use Rattle.std.specs.Prelude.{ℕ, ◌<◌, IsTrue, length, slice_index_or};

mod blocks;
mod graph;
mod guards;
mod loops;
mod modules;
mod types;

use base_fixed_point::FixType;
use base_graph::Graph;
use std::alloc::{AllocError, Global};
use std::test::Fail;

const INT8: FixType = FixType {
    signed: true,
    bits: 8,
    frac: 0,
};

/// The graph of these edges, where each of their ends is a node.
fn graph_of(n: u32, edges: Vec<(u32, u32)>) -> Option<Graph> {
    if are_inside(n, &edges) {
        Some(Graph { n, edges })
    } else {
        None
    }
}

/// Whether both ends of each edge are nodes.
fn are_inside(n: u32, edges: &[(u32, u32)]) -> bool
    ensures { IsTrue result → (k : ℕ) → k < length edges.now →
        ((slice_index_or edges.now k (0, 0)).0 < n) × ((slice_index_or edges.now k (0, 0)).1 < n) }
{
    for edge in edges {
        if edge.0 >= n || edge.1 >= n {
            return false;
        }
    }
    true
}

/// The graph of these edges, or a failure.
fn small_graph(alloc: Global, n: u32, edges: &[(u32, u32)]) -> Result<Graph, Fail> {
    let edges = edges.to_vec(alloc)?;
    Ok(graph_of(n, edges).ok_or("an edge leaves the graph")?)
}

/// The edges of 20,000 nodes: to each from the one before, from each to the one before, or to each from the first.
fn long_edges(alloc: Global, shape: &str) -> Result<Vec<(u32, u32)>, AllocError> {
    let mut edges = Vec::new(alloc);
    for b in 1..20_000 {
        let edge = match shape {
            "line" => (b - 1, b),
            "reversed" => (b, b - 1),
            _ => (0, b),
        };
        edges.push(edge)?;
    }
    Ok(edges)
}

/// Whether the list is 0, 1, 2 and so on.
fn counts_up(list: &[u32]) -> bool {
    list.iter().enumerate().all(|(k, b)| *b as usize == k)
}

/// Fails where what is reported isn't what is expected.
fn is_told(told: &str, expected: &str) -> Result<(), Fail> {
    if told == expected {
        return Ok(());
    }
    Err(Fail::new(format_args!("{told} is told, not {expected}")))
}

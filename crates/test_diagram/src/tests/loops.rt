use super::{counts_up, graph_of, is_told, long_edges, small_graph};
use base_graph::Graph;
use diagram_needs::find_in;
use std::alloc::Global;
use std::test::Fail;

/// The loop that is reported of a graph: `none`, its nodes, or how many they are where they count up from 0.
fn loop_told(alloc: Global, g: &Graph) -> Result<String, Fail> {
    match find_in(alloc, g)? {
        None => Ok(format!(in alloc; "none")?),
        Some(list) if counts_up(&list) => Ok(format!(in alloc; "0 and up, {}", list.len())?),
        Some(list) => Ok(format!(in alloc; "{list:?}")?),
    }
}

/// Compares that with what is expected.
fn is_loop(alloc: Global, n: u32, edges: &[(u32, u32)], expected: &str) -> Result<(), Fail> {
    let g = small_graph(alloc, n, edges)?;
    is_told(&loop_told(alloc, &g)?, expected)
}

#[test]
fn small_loops(rt: HostRuntime) -> Result<(), Fail> {
    let alloc = rt.alloc();
    // A sum and a gain that go round.
    is_loop(alloc, 4, &[(0, 1), (2, 1), (1, 2), (1, 3)], "[1, 2]")?;
    // The first of two loops as short is reported.
    is_loop(
        alloc,
        5,
        &[(4, 1), (3, 1), (2, 3), (2, 4), (1, 2)],
        "[1, 3, 2]",
    )?;
    // A shortest loop through the least row is reported: 0 needs 1, 1 needs 2, 2 needs 0; 0 needs 4, 4 needs 0; 3 needs itself.
    is_loop(
        alloc,
        5,
        &[(1, 0), (2, 1), (0, 2), (4, 0), (0, 4), (3, 3)],
        "[0, 4]",
    )?;
    // A row that needs itself is a loop.
    is_loop(alloc, 2, &[(0, 1), (1, 1)], "[1]")?;
    // Row 0 is an Inport, 1 the subsystem, 2 its Inport, 3 its EnablePort and 4 its Outport, which enables it.
    is_loop(
        alloc,
        6,
        &[(0, 2), (4, 2), (4, 3), (2, 4), (4, 4), (4, 5)],
        "[2, 4]",
    )
}

/// The loop that is reported of 20,000 nodes with edges of this shape and one more.
fn long_loop(alloc: Global, shape: &str, more: Option<(u32, u32)>) -> Result<String, Fail> {
    let mut edges = long_edges(alloc, shape)?;
    if let Some(edge) = more {
        edges.push(edge)?;
    }
    let g = graph_of(20_000, edges).ok_or("an edge leaves the graph")?;
    loop_told(alloc, &g)
}

// One long loop, a loop after a long chain, and a line that has no loop.
#[test]
fn long_loops(rt: HostRuntime) -> Result<(), Fail> {
    for &(shape, more, expected) in &[
        ("reversed", Some((0, 19_999)), "0 and up, 20000"),
        ("reversed", Some((19_998, 19_999)), "[19998, 19999]"),
        ("line", None, "none"),
    ] {
        is_told(&long_loop(rt.alloc(), shape, more)?, expected)?;
    }
    Ok(())
}

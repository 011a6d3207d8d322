use super::{counts_up, graph_of, is_told, long_edges, small_graph};
use base_graph::{Graph, OrderFault, masks, order};
use std::alloc::Global;
use std::test::Fail;

/// The order of 20,000 nodes with edges of this shape.
fn long_order(alloc: Global, shape: &str) -> Result<Vec<u32>, Fail> {
    let g = graph_of(20_000, long_edges(alloc, shape)?).ok_or("an edge leaves the graph")?;
    Ok(order(alloc, &g)?)
}

// A line is in its order, a reversed line backwards, and a star after its middle.
#[test]
fn long_orders(rt: HostRuntime) -> Result<(), Fail> {
    for &shape in &["line", "reversed", "star"] {
        let mut list = long_order(rt.alloc(), shape)?;
        if shape == "reversed" {
            list.reverse();
        }
        assert_eq!(rt; (list.len(), counts_up(&list)), (20_000, true), "{shape}");
    }
    Ok(())
}

/// The order of the nodes of a graph, or the cycle that is reported.
fn order_told(alloc: Global, g: &Graph) -> Result<String, Fail> {
    match order(alloc, g) {
        Ok(list) => Ok(format!(in alloc; "order {list:?}")?),
        Err(OrderFault::Cycle(list)) => Ok(format!(in alloc; "cycle {list:?}")?),
        Err(OrderFault::Memory) => Err(Fail::from("memory")),
    }
}

/// Compares that with what is expected.
fn is_order(alloc: Global, n: u32, edges: &[(u32, u32)], expected: &str) -> Result<(), Fail> {
    let g = small_graph(alloc, n, edges)?;
    is_told(&order_told(alloc, &g)?, expected)
}

// The least node that may come is next, and a cycle of three is reported.
#[test]
fn small_orders(rt: HostRuntime) -> Result<(), Fail> {
    is_order(rt.alloc(), 4, &[(3, 0), (1, 2)], "order [1, 2, 3, 0]")?;
    is_order(rt.alloc(), 3, &[(0, 1), (1, 2), (2, 0)], "cycle [0, 2, 1]")
}

#[test]
fn masks_meet_in_a_diamond(rt: HostRuntime) -> Result<(), Fail> {
    let g = small_graph(rt.alloc(), 4, &[(0, 1), (0, 2), (1, 3), (2, 3)])?;
    assert_eq!(rt; g.n, 4);
    let unions = masks(rt.alloc(), &g, &[1, 2, 4, 0])?;
    assert_eq!(rt; unions.as_slice(), [1, 3, 5, 7].as_slice());
    Ok(())
}

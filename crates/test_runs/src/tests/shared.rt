use super::resolved;
use super::systems::{child_nodes, root_nodes};
use modules_profile::{Node, Nodes};
use std::alloc::Global;
use std::test::Fail;

/// A subsystem that adds twice what a delay holds to each of its two inputs; the delay begins with 1 and takes that double.
const SHARED_NODE: &str = "Inport a OutDataTypeStr=int32; Inport b Port=2 OutDataTypeStr=int32; \
     SubSystem s {; Inport x1; Inport x2 Port=2; UnitDelay d InitialCondition=1; Gain g Gain=2 OutDataTypeStr=int32; \
     Sum p; Sum q; Outport y1; Outport y2 Port=2; \
     g 1 > d 1; d 1 > g 1; g 1 > p 1; x1 1 > p 2; g 1 > q 1; x2 1 > q 2; p 1 > y1 1; q 1 > y2 1; }; \
     Outport o1; Outport o2 Port=2; a 1 > s 1; b 1 > s 2; s 1 > o1 1; s 2 > o2 1";

/// A subsystem that passes its input on; the first output of the root is what it gives, the second that and an input more.
const SHARED_CHILD: &str = "Inport a OutDataTypeStr=int32; Inport b Port=2 OutDataTypeStr=int32; \
     SubSystem s {; Inport x; Outport y; x 1 > y 1; }; \
     Sum p; Outport o1; Outport o2 Port=2; a 1 > s 1; s 1 > p 1; b 1 > p 2; s 1 > o1 1; p 1 > o2 1";

/// The nodes of a system, its edges and the nodes of its outputs.
type Seen<'a> = (&'a [Node], &'a [(u32, u32)], &'a [u32]);

fn seen(nodes: &Nodes) -> Seen<'_> {
    (
        nodes.list.as_slice(),
        nodes.graph.edges.as_slice(),
        nodes.outputs.as_slice(),
    )
}

/// The nodes of the subsystem of a model of these parts.
fn nodes_of_child(alloc: Global, parts: &str) -> Result<Nodes, Fail> {
    child_nodes(alloc, &resolved(alloc, parts)?)
}

/// The nodes of the root of a model of these parts.
fn nodes_of_root(alloc: Global, parts: &str) -> Result<Nodes, Fail> {
    root_nodes(alloc, &resolved(alloc, parts)?)
}

// The delay, at place 2, needs nothing; the gain after it, at place 3, is needed by both sums.
#[test]
fn nodes_of_a_shared_node(rt: HostRuntime) -> Result<(), Fail> {
    let rows = [3, 4, 5, 6, 7, 8, 9, 10].map(Node::Row);
    let edges = [(2, 3), (3, 4), (0, 4), (3, 5), (1, 5), (4, 6), (5, 7)];
    let nodes = nodes_of_child(rt.alloc(), SHARED_NODE)?;
    let wanted: Seen = (&rows, &edges, &[6, 7]);
    assert_eq!(rt; seen(&nodes), wanted);
    Ok(())
}

// The call, at place 6, is needed by the sum and by the first output.
#[test]
fn nodes_of_a_shared_child(rt: HostRuntime) -> Result<(), Fail> {
    let call = Node::Call {
        child: 2,
        function: 1,
    };
    let list = [
        Node::Row(0),
        Node::Row(1),
        Node::Row(2),
        Node::Row(5),
        Node::Row(6),
        Node::Row(7),
        call,
    ];
    let edges = [(6, 3), (1, 3), (6, 4), (3, 5), (0, 6)];
    let nodes = nodes_of_root(rt.alloc(), SHARED_CHILD)?;
    let wanted: Seen = (&list, &edges, &[4, 5]);
    assert_eq!(rt; seen(&nodes), wanted);
    Ok(())
}

use base_graph::Graph;
use modules_clusters::{classes, clusters, groups_of};
use std::test::Fail;

#[test]
fn classes_of_outputs(rt: HostRuntime) {
    // two outputs need one input, and one needs nothing
    let mut shared = [9; 3];
    let of_shared = classes(&[1, 1, 0], &mut shared);
    // each output needs an input of its own
    let mut crossed = [9; 2];
    let of_crossed = classes(&[1, 2], &mut crossed);
    // enable and trigger alone, and with the first input
    let mut controlled = [9; 3];
    let of_controlled = classes(&[3 << 32, (3 << 32) + 1, 3 << 32], &mut controlled);
    assert_eq!(rt;
        (
            (of_shared, shared),
            (of_crossed, crossed),
            (of_controlled, controlled)
        ),
        ((2, [0, 0, 1]), (2, [0, 1]), (2, [0, 1, 0]))
    );
}

#[test]
fn thirty_two_needs(rt: HostRuntime) {
    let mut masks = [0; 32];
    for k in 0..32 {
        masks[k] = 1 << k;
    }
    let mut class = [9; 32];
    let count = classes(&masks, &mut class);
    assert_eq!(rt; (count, class[0], class[31]), (32, 0, 31));
}

#[test]
fn shared_node(rt: HostRuntime) -> Result<(), Fail> {
    // x1, x2, a delay, its gain, gain + x1, gain + x2, y1, y2
    let edges = vec![in rt.alloc(); (2, 3), (3, 4), (0, 4), (3, 5), (1, 5), (4, 6), (5, 7)]?;
    let g = Graph { n: 8, edges };
    let holds = clusters(rt.alloc(), &g, &[6, 7], &[0, 1])?;
    assert_eq!(rt; holds.as_slice(), [1, 2, 3, 3, 1, 2, 1, 2].as_slice());
    Ok(())
}

#[test]
fn shared_child(rt: HostRuntime) -> Result<(), Fail> {
    // In1, In2, the child's row, child + In2, Out1, Out2, and the call of the child
    let edges = vec![in rt.alloc(); (0, 6), (6, 3), (1, 3), (6, 4), (3, 5)]?;
    let g = Graph { n: 7, edges };
    let holds = clusters(rt.alloc(), &g, &[4, 5], &[0, 1])?;
    let groups = groups_of(rt.alloc(), &[3, 2, 0, 2, 1, 2, 3])?;
    assert_eq!(rt;
        (
            holds.as_slice(),
            groups.of.as_slice(),
            groups.holds.as_slice()
        ),
        (
            [3, 2, 0, 2, 1, 2, 3].as_slice(),
            [0, 1, 3, 1, 2, 1, 0].as_slice(),
            [3, 2, 1, 0].as_slice()
        )
    );
    Ok(())
}

ghost use Rattle.std.specs.Prelude.{◌≤◌, ◌<◌, ◌^◌, All, length};

use super::is_told;
use modules_clusters::Groups;
use modules_schedule::{NodeList, Schedule, schedule_of};
use std::alloc::{AllocError, Global};
use std::test::Fail;

// The numbers of each of the lists.
fn numbers_of(alloc: Global, lists: &[NodeList]) -> Result<Vec<&[u32]>, AllocError> {
    let mut numbers = Vec::new(alloc);
    for list in lists {
        numbers.push(list.numbers())?;
    }
    Ok(numbers)
}

// The nodes of each group, the groups of each function, and the nodes that no function holds.
fn described(alloc: Global, schedule: &Schedule) -> Result<String, AllocError> {
    let groups = numbers_of(alloc, &schedule.groups)?;
    let functions = numbers_of(alloc, &schedule.functions)?;
    let update = schedule.update.numbers();
    format!(in alloc; "groups {groups:?} functions {functions:?} update {update:?}")
}

/// The same of the schedule of nodes in this order, of their groups, and of what those hold.
fn schedule_told(
    alloc: Global,
    order: &[u32],
    of: &[u32],
    holds: &[u64],
    count: u32,
) -> Result<String, Fail>
    requires nodes { All (λ k. k < length of.now) order.now }
    requires groups { All (λ group. group < length holds.now) of.now }
    requires numbered { length holds.now ≤ 2 ^ 32 }
    requires few { count ≤ 32 }
{
    let groups = Groups {
        of: of.to_vec(alloc)?,
        holds: holds.to_vec(alloc)?,
    };
    let schedule = schedule_of(alloc, order, &groups, count)?;
    Ok(described(alloc, &schedule)?)
}

#[test]
fn shared_nodes(rt: HostRuntime) -> Result<(), Fail> {
    let alloc = rt.alloc();
    // nodes 0 and 2 belong to the first function, node 1 to the second, node 4 to both, and node 3 to none
    let told = schedule_told(alloc, &[0, 1, 4, 2, 3], &[1, 2, 1, 3, 0], &[3, 1, 2, 0], 2)?;
    let node = "groups [[4], [0, 2], [1], []] functions [[0, 1], [0, 2]] update [3]";
    is_told(told.as_bytes(), node, "a node")?;
    // In1, In2, the child's row, child + In2, Out1, Out2, and the call of the child
    let told = schedule_told(
        alloc,
        &[0, 1, 2, 6, 3, 4, 5],
        &[0, 1, 3, 1, 2, 1, 0],
        &[3, 2, 1, 0],
        2,
    )?;
    let child = "groups [[0, 6], [1, 3, 5], [4], []] functions [[0, 2], [0, 1]] update [2]";
    is_told(told.as_bytes(), child, "a child")
}

#[test]
fn thirty_two_functions(rt: HostRuntime) -> Result<(), Fail> {
    // one node that all of them hold
    let groups = Groups {
        of: vec![in rt.alloc(); 0]?,
        holds: vec![in rt.alloc(); (1 << 32) - 1]?,
    };
    let schedule = schedule_of(rt.alloc(), &[0], &groups, 32)?;
    let functions = numbers_of(rt.alloc(), &schedule.functions)?;
    assert_eq!(rt;
        (functions.as_slice(), schedule.update.numbers()),
        ([[0].as_slice(); 32].as_slice(), [].as_slice())
    );
    Ok(())
}

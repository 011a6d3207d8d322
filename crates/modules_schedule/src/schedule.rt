ghost use Rattle.std.specs.Prelude.{◌≡◌, ◌<◌, ◌≤◌, ◌^◌, All, IfOk, length};
ghost use Rattle.modules_schedule.specs.Scheduling.{schedule_for};

use crate::NodeList;
use crate::lists::{groups_by_function, nodes_by_group, unheld_nodes};
use base_core::Memory;
use modules_clusters::Groups;
use std::alloc::Global;
use std::marker::Model;

/// Each group with its nodes in order, each function with its groups, and the nodes that no function holds.
#[derive(Drop)]
pub struct Schedule {
    /// The nodes of each group; none where no function holds it.
    pub groups: Vec<NodeList>,
    /// The groups of each function, by number.
    pub functions: Vec<NodeList>,
    /// The nodes that no function holds.
    pub update: NodeList,
}

impl Model for Schedule {
    ghost use Rattle.modules_schedule.specs.SystemSchedule.{SystemSchedule};

    ghost Value = { SystemSchedule };

    ghost view = { λ s. record {
      groups = s.groups.items;
      functions = s.functions.items;
      update = s.update;
    } };
}

/// The schedule of so many functions: each group has its nodes in the order that is given, each function the groups that
/// it holds by number, and the update the nodes that no function holds; their group is empty.
///
/// In time linear in nodes and in groups times functions.
pub fn schedule_of(alloc: Global, order: &[u32], g: &Groups, count: u32) -> Result<Schedule, Memory>
    requires nodes { All (λ k. k < length g.now.of) order.now }
    requires groups { All (λ group. group < length g.now.holds) g.now.of }
    requires numbered { length g.now.holds ≤ 2 ^ 32 }
    requires few { count ≤ 32 }
    ensures { IfOk result (λ s. s ≡ schedule_for order.now g.now count) }
{
    let groups = nodes_by_group(alloc, order, g)?;
    let functions = groups_by_function(alloc, &g.holds, count)?;
    let update = unheld_nodes(alloc, order, g)?;
    Ok(Schedule {
        groups,
        functions,
        update,
    })
}

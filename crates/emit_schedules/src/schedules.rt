ghost use Rattle.std.specs.Prelude.{◌≡◌, ◌<◌, ◌≤◌, ◌^◌, IfOk, length};
ghost use Rattle.base_graph.specs.OneOrder.{IsOrder};
ghost use Rattle.base_graph.specs.Reaching.{HasNoCycle};
ghost use Rattle.modules_profile.specs.LocalNodes.{AreNodesOf};
ghost use Rattle.modules_profile.specs.Locals.{outports};
ghost use Rattle.emit_system_spec.specs.Schedules.{IsScheduleOf};

use crate::functions::giving_functions;
use base_core::Memory;
use base_graph::{Graph, OrderFault, order};
use modules_clusters::{clusters, groups_of};
use modules_profile::{Local, Nodes, Profile};
use modules_schedule::{Schedule, schedule_of};
use std::alloc::Global;

/// 32 bits number the nodes of a graph.
fn nodes_are_numbered(graph: &Graph)
    ensures { graph.now.n < 2 ^ 32 }
{
    let _count = graph.n;
}

/// The one order of the nodes of a graph without a cycle.
fn order_of(alloc: Global, graph: &Graph) -> Result<Vec<u32>, Memory>
    requires { HasNoCycle graph.now }
    ensures { IfOk result (λ v. IsOrder graph.now v.items) }
{
    match order(alloc, graph) {
        Ok(nodes) => Ok(nodes),
        Err(OrderFault::Memory) => Err(Memory),
        Err(OrderFault::Cycle(_)) => unreachable!(),
    }
}

/// The schedule of the nodes of a system, in their one order, by the functions of its profile that hold them.
///
/// In time linear in nodes and needs times a logarithm.
pub fn schedule_of_system(
    alloc: Global,
    local: &Local,
    profile: &Profile,
    nodes: &Nodes,
) -> Result<Schedule, Memory>
    requires nodes { AreNodesOf local.now nodes.now }
    requires acyclic { HasNoCycle nodes.now.graph }
    requires outputs { length (outports local.now) ≤ 32 }
    requires few { length profile.now.functions ≤ 32 }
    ensures { IfOk result (λ s. IsScheduleOf local.now profile.now s) }
{
    nodes_are_numbered(&nodes.graph);
    let giving = giving_functions(alloc, profile, nodes.outputs.len())?;
    let held = clusters(alloc, &nodes.graph, &nodes.outputs, &giving)?;
    let groups = groups_of(alloc, &held)?;
    let order = order_of(alloc, &nodes.graph)?;
    schedule_of(alloc, &order, &groups, profile.functions.len() as u32)
}

ghost use Rattle.std.specs.Prelude.{◌≡◌, IfOk};
ghost use Rattle.diagram_meaning.specs.Needs.{HasNoLoop, needs_of};
ghost use Rattle.diagram_meaning.specs.Nested.{Agrees, row_of, system_of};
ghost use Rattle.diagram_meaning.specs.ResolvedTree.{diagram_of};
ghost use Rattle.base_graph.specs.Reaching.{HasNoCycle};
ghost use Rattle.modules_profile.specs.Functions.{IsProfileOf};
ghost use Rattle.modules_profile.specs.LawfulLocals.{IsLocal};
ghost use Rattle.modules_profile.specs.LocalNodes.{AreNodesOf};
ghost use Rattle.modules_profile.specs.Locals.{local_of as local_of_system};
ghost use Rattle.modules_profile.specs.NodeFacts.{AreProfiles, headers_with, IsLocalOf};
ghost use Rattle.modules_profile.specs.Systems.{IsInTable};

use crate::functions::functions_of;
use crate::headers::headers;
use crate::needs::output_needs;
use crate::node_list::nodes_of;
use crate::system::row;
use crate::{Local, Nodes, Profile, local_of};
use base_core::Memory;
use diagram_meaning::{Resolved, Subsystem};
use std::alloc::Global;

/// The profile of the system `s` of a resolved tree, whose children have these profiles, in order: one output function
/// for each different set of inputs that an output needs, by the least output of each.
///
/// In time linear in the rows of the system and in the profiles of its children, except the masks.
pub fn profile_of(
    alloc: Global,
    r: &Resolved,
    s: &Subsystem,
    children: &[Profile],
) -> Result<Profile, Memory>
    requires system { Agrees r.now.tree.table.rows (system_of s.now) }
    requires inside { IsInTable r.now.tree.table.rows (row_of (system_of s.now)) }
    requires children { AreProfiles (diagram_of r.now) (row_of (system_of s.now)) children.now }
    ensures { IfOk result (λ p. IsProfileOf (diagram_of r.now) (row_of (system_of s.now)) p) }
{
    r.is_resolved();
    let local = local_with(alloc, r, s, children)?;
    let nodes = nodes_of(alloc, &local)?;
    let needs = output_needs(alloc, &local, &nodes)?;
    Ok(Profile {
        row: row(s),
        functions: functions_of(alloc, &needs)?,
    })
}

/// The nodes of the system `s` of a resolved tree, whose children have these profiles, in order, with what each needs.
/// Where no rows of the tree form a loop, no nodes form a cycle.
pub fn system_nodes(
    alloc: Global,
    r: &Resolved,
    s: &Subsystem,
    children: &[Profile],
) -> Result<Nodes, Memory>
    requires system { Agrees r.now.tree.table.rows (system_of s.now) }
    requires inside { IsInTable r.now.tree.table.rows (row_of (system_of s.now)) }
    requires children { AreProfiles (diagram_of r.now) (row_of (system_of s.now)) children.now }
    ensures nodes { IfOk result
        (λ nodes.
        AreNodesOf (local_of_system (diagram_of r.now) r.now.times.delays (row_of (system_of s.now))
        (headers_with (diagram_of r.now) children.now)) nodes) }
    ensures no_cycle { HasNoLoop (needs_of (diagram_of r.now)) →
        IfOk result (λ nodes. HasNoCycle nodes.graph) }
{
    r.is_resolved();
    let local = local_with(alloc, r, s, children)?;
    nodes_of(alloc, &local)
}

/// The system `s` of a resolved tree by its own rows, whose children have these profiles, in order.
///
/// In time linear in the rows of the system and in the profiles of its children.
pub fn local_with(
    alloc: Global,
    r: &Resolved,
    s: &Subsystem,
    children: &[Profile],
) -> Result<Local, Memory>
    requires system { Agrees r.now.tree.table.rows (system_of s.now) }
    requires inside { IsInTable r.now.tree.table.rows (row_of (system_of s.now)) }
    requires children { AreProfiles (diagram_of r.now) (row_of (system_of s.now)) children.now }
    ensures is { IfOk result (λ local. local
        ≡ local_of_system (diagram_of r.now) r.now.times.delays (row_of (system_of s.now))
        (headers_with (diagram_of r.now) children.now)) }
    ensures local { IfOk result (λ local. IsLocalOf r.now (row_of (system_of s.now)) local) }
    ensures lawful { IfOk result IsLocal }
{
    r.is_resolved();
    let headers = headers(alloc, r, s, children)?;
    local_of(alloc, r, s, &headers)
}

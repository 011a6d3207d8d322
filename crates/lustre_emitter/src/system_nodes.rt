// The nodes of the systems.
ghost use Rattle.std.specs.Prelude.{◌≡◌, ◌++◌, IfOk, OnOk, map};
ghost use Rattle.diagram_meaning.specs.Nested.{Agrees, row_of, system_of};
ghost use Rattle.diagram_meaning.specs.ResolvedTree.{diagram_of};
ghost use Rattle.lustre_syntax.specs.Plain.{node_tree};
ghost use Rattle.lustre_system.specs.SystemNodes as nodes;
ghost use Rattle.lustre_expressions.specs.Found.{place_in};
ghost use Rattle.lustre_expressions.specs.Placed.{placed_by};
ghost use Rattle.lustre_emitter.specs.Listed.{listed_rows, AreAgreed};

use base_core::Memory;
use diagram_meaning::{Resolved, Subsystem};
use lustre_expressions::Callees;
use lustre_syntax::LusNode;
use lustre_system_nodes::{named_system, system_equations, system_node};
use std::alloc::Global;

// The node of a system.
fn node_of(
    alloc: Global,
    r: &Resolved,
    system: &Subsystem,
    callees: &Callees,
) -> Result<LusNode, Memory>
    requires { Agrees r.now.tree.table.rows (system_of system.now) }
    ensures { IfOk result (λ n. node_tree n ≡ placed_by (place_in callees.now.places.now)
        (nodes.system_node (diagram_of r.now) (row_of (system_of system.now)))) }
{
    let named = named_system(alloc, r, system)?;
    let equations = system_equations(alloc, r, &named, callees)?;
    system_node(alloc, named, equations)
}

/// Adds the nodes of systems.
pub(crate) fn push_systems(
    alloc: Global,
    r: &Resolved,
    callees: &Callees,
    systems: &[&Subsystem],
    list: &mut Vec<LusNode>,
) -> Result<(), Memory>
    requires { AreAgreed r.now.tree.table.rows systems.now }
    ensures { OnOk result (map node_tree list.new.items ≡ map node_tree list.old.items
        ++ map (placed_by (place_in callees.now.places.now))
        (map (nodes.system_node (diagram_of r.now)) (listed_rows systems.now))) }
{
    for system in systems {
        list.push(node_of(alloc, r, system, callees)?)?;
    }
    Ok(())
}

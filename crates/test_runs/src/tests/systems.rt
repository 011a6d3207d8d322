ghost use Rattle.std.specs.Prelude.{◌≡◌, ◌∷◌, [], None, Some, IfOk, map};
ghost use Rattle.diagram_meaning.specs.Nested.{Agrees, row_of, system_of};
ghost use Rattle.diagram_meaning.specs.ResolvedTree.{diagram_of};
ghost use Rattle.diagram_meaning.specs.Rows.{subsystems_of};
ghost use Rattle.modules_profile.specs.NodeFacts.{AreProfiles};
ghost use Rattle.modules_profile.specs.Systems.{IsInTable};

use diagram_meaning::{Resolved, Subsystem};
use modules_profile::{
    Nodes, Profile, local_of, locals_are_lawful, nodes_of, profile_of, system_nodes,
};
use std::alloc::Global;
use std::test::Fail;

/// The root.
fn root_of(r: &Resolved) -> &Subsystem
    ensures system { Agrees r.now.tree.table.rows (system_of result.now) }
    ensures root { row_of (system_of result.now) ≡ None }
{
    r.tree.root()
}

/// The subsystem of the root, where that has no other and the subsystem has none.
fn only_child(r: &Resolved) -> Result<&Subsystem, Fail>
    ensures system { IfOk result (λ s. Agrees r.now.tree.table.rows (system_of s.now)) }
    ensures inside { IfOk result (λ s. IsInTable r.now.tree.table.rows (row_of (system_of s.now))) }
    ensures leaf { IfOk result
        (λ s. map Some (subsystems_of r.now.tree.table.rows (row_of (system_of s.now))) ≡ []) }
    ensures only { IfOk result (λ s. map Some (subsystems_of r.now.tree.table.rows None)
        ≡ row_of (system_of s.now) ∷ []) }
{
    let root = root_of(r);
    if root.children.len() != 1 {
        return Err("the root has no subsystem, or several".into());
    }
    let child = &root.children[0];
    if !child.children.is_empty() {
        return Err("the subsystem has others inside".into());
    }
    Ok(child)
}

/// The profile of that subsystem.
fn child_profiles(alloc: Global, r: &Resolved) -> Result<Vec<Profile>, Fail>
    ensures { IfOk result (λ v. AreProfiles (diagram_of r.now) None v.items) }
{
    let child = only_child(r)?;
    let profile = profile_of(alloc, r, child, &[])?;
    Ok(vec![in alloc; profile]?)
}

/// The nodes of that subsystem.
pub fn child_nodes(alloc: Global, r: &Resolved) -> Result<Nodes, Fail> {
    r.is_resolved();
    locals_are_lawful();
    let child = only_child(r)?;
    let local = local_of(alloc, r, child, &[])?;
    Ok(nodes_of(alloc, &local)?)
}

/// The nodes of the root.
pub fn root_nodes(alloc: Global, r: &Resolved) -> Result<Nodes, Fail> {
    let children = child_profiles(alloc, r)?;
    Ok(system_nodes(alloc, r, root_of(r), &children)?)
}

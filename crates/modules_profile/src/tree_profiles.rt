ghost use Rattle.std.specs.Prelude.{◌≡◌, ◌<◌, Some, Contains, IfOk, length, slice_get};
ghost use Rattle.diagram_meaning.specs.Nested.{Agrees, row_of, system_of};
ghost use Rattle.diagram_meaning.specs.ResolvedTree.{diagram_of};
ghost use Rattle.modules_profile.specs.Systems.{children_of, IsInTable};
ghost use Rattle.modules_profile.specs.TreeProfiles.{AreProfilesInside};

use crate::Profile;
use crate::profiles::profile_of;
use base_core::Memory;
use diagram_meaning::{Resolved, Subsystem};
use std::alloc::Global;

/// The profiles of all systems of a resolved tree: that of the root, and then those of the subsystems by row.
///
/// They are made from the innermost systems outward, each once.
pub fn profiles_of(alloc: Global, r: &Resolved) -> Result<Vec<Profile>, Memory>
    ensures { IfOk result
        (λ v. AreProfilesInside (diagram_of r.now) (system_of r.now.tree.root) v.items) }
{
    r.is_resolved();
    profiles_inside(alloc, r, root(r))
}

fn root(r: &Resolved) -> &Subsystem
    ensures { result.now ≡ r.now.tree.root }
{
    r.tree.root()
}

// The profile of a system, and then those of the systems inside it.
fn profiles_inside(alloc: Global, r: &Resolved, s: &Subsystem) -> Result<Vec<Profile>, Memory>
    requires system { Agrees r.now.tree.table.rows (system_of s.now) }
    requires inside { IsInTable r.now.tree.table.rows (row_of (system_of s.now)) }
    ensures { IfOk result (λ v. AreProfilesInside (diagram_of r.now) (system_of s.now) v.items) }
{
    let mut inner = Vec::new(alloc);
    let mut children = Vec::new(alloc);
    for child in &s.children {
        is_child(r, s, child);
        let mut profiles = profiles_inside(alloc, r, child)?;
        children.push(copy_first(alloc, &profiles)?)?;
        inner.append(&mut profiles)?;
    }
    let own = profile_of(alloc, r, s, &children)?;
    let mut profiles = Vec::new(alloc);
    profiles.push(own)?;
    profiles.append(&mut inner)?;
    Ok(profiles)
}

// A system directly inside one of a tree is one of that tree.
fn is_child(r: &Resolved, s: &Subsystem, child: &Subsystem)
    requires system { Agrees r.now.tree.table.rows (system_of s.now) }
    requires child { Contains (children_of (system_of s.now)) (system_of child.now) }
    ensures system { Agrees r.now.tree.table.rows (system_of child.now) }
    ensures inside { IsInTable r.now.tree.table.rows (row_of (system_of child.now)) }
{}

fn copy_first(alloc: Global, profiles: &[Profile]) -> Result<Profile, Memory>
    requires { 0 < length profiles.now }
    ensures { IfOk result (λ p. slice_get profiles.now 0 ≡ Some p) }
{
    profiles[0].copied(alloc)
}

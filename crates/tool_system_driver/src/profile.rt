ghost use Rattle.std.specs.Prelude.{◌≡◌, Contains, IfOk, map};
ghost use Rattle.diagram_meaning.specs.ResolvedTree.{diagram_of};
ghost use Rattle.modules_profile.specs.Functions.{IsProfileOf};
ghost use Rattle.modules_profile.specs.Systems.{systems};

use base_core::Memory;
use diagram_meaning::{Resolved, same_system};
use modules_profile::{Profile, profiles_of, tree_has_all_systems};
use std::alloc::Global;

// The profile of a system, where there is one among some.
fn profile_in(profiles: &[Profile], system: Option<u32>) -> &Profile
    requires { Contains (map (λ p. p.row) profiles.now) system }
    ensures in_them { Contains profiles.now result.now }
    ensures of_system { result.now.row ≡ system }
{
    for profile in profiles {
        if same_system(profile.row, system) {
            return profile;
        }
    }
    unreachable!()
}

/// The profile of a system of a model.
///
/// Fails only when memory runs out.
pub(crate) fn profile_of(
    alloc: Global,
    r: &Resolved,
    system: Option<u32>,
) -> Result<Profile, Memory>
    requires { Contains (systems r.now.tree.table.rows) system }
    ensures { IfOk result (λ p. IsProfileOf (diagram_of r.now) system p) }
{
    r.is_resolved();
    tree_has_all_systems();
    let profiles = profiles_of(alloc, r)?;
    profile_in(&profiles, system).copied(alloc)
}

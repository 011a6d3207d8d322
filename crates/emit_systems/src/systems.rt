ghost use Rattle.std.specs.Prelude.{◌≡◌, Contains, IfOk, map};
ghost use Rattle.std.specs.List.{AllZip};
ghost use Rattle.diagram_meaning.specs.Needs.{needs_of, HasNoLoop};
ghost use Rattle.diagram_meaning.specs.Nested.{Agrees, row_of, system_of};
ghost use Rattle.diagram_meaning.specs.ResolvedTree.{diagram_of};
ghost use Rattle.modules_profile.specs.Functions.{IsProfileOf};
ghost use Rattle.modules_profile.specs.Locals.{local_of};
ghost use Rattle.modules_profile.specs.NodeFacts.{headers_with, AreProfiles, IsLocalOf};
ghost use Rattle.modules_profile.specs.Systems.{systems, IsInTable};
ghost use Rattle.modules_profile.specs.TreeProfiles.{rows_inside, AreProfilesInside};
ghost use Rattle.right_claim.specs.Assembly.{CanAssemble, IsCodeOf};
ghost use Rattle.emit_shape.specs.SystemTree.{system_tree};
ghost use Rattle.emit_systems.specs.ChildProfiles.{AreProfilesBelow};

use crate::emit::emit_system;
use crate::reading::{is_child, root};
use base_core::Memory;
use diagram_meaning::{Resolved, Subsystem};
use emit_schedules::schedule_of_system;
use emit_shape::SystemCode;
use modules_profile::{Local, Profile, local_with, profile_of, system_nodes, tree_has_all_systems};
use std::alloc::Global;

/// The codes and profiles of all systems of a model, and its root by its own rows.
#[derive(Drop)]
pub struct Codes {
    /// The root, whose ports are those of the program.
    pub root: Local,
    /// The profile of the root, and then those of the subsystems by row.
    pub profiles: Vec<Profile>,
    /// The code of the root, and then those of the subsystems by row.
    pub codes: Vec<SystemCode>,
}

/// The codes of all systems of a resolved tree without a loop, each right by itself, and the profiles that they are made from.
///
/// They are made from the innermost systems outward, each once, in time linear in the model's rows and headers except
/// for the schedules. A code is moved once for each system around its own.
pub fn codes_of(alloc: Global, r: &Resolved) -> Result<Codes, Memory>
    requires { HasNoLoop (needs_of (diagram_of r.now)) }
    ensures codes { IfOk result
        (λ c. CanAssemble r.now (map system_tree c.codes.items) c.root r.now.times.hyper) }
    ensures profiles { IfOk result
        (λ c. AreProfilesInside (diagram_of r.now) (system_of r.now.tree.root) c.profiles.items) }
{
    r.is_resolved();
    tree_has_all_systems();
    let Inside {
        local,
        profile,
        mut below,
        codes,
    } = codes_inside(alloc, r, root(r))?;
    let mut profiles = Vec::new(alloc);
    profiles.push(profile)?;
    profiles.append(&mut below)?;
    Ok(Codes {
        root: local,
        profiles,
        codes,
    })
}

// A system by its own rows, its profile, those of the systems inside it, its code, and then the codes of these systems.
#[derive(Drop)]
struct Inside {
    local: Local,
    profile: Profile,
    below: Vec<Profile>,
    codes: Vec<SystemCode>,
}

// What a system and those inside it come to.
fn codes_inside(alloc: Global, r: &Resolved, s: &Subsystem) -> Result<Inside, Memory>
    requires no_loop { HasNoLoop (needs_of (diagram_of r.now)) }
    requires system { Agrees r.now.tree.table.rows (system_of s.now) }
    requires inside { IsInTable r.now.tree.table.rows (row_of (system_of s.now)) }
    requires listed { Contains (systems r.now.tree.table.rows) (row_of (system_of s.now)) }
    ensures local { IfOk result (λ i. IsLocalOf r.now (row_of (system_of s.now)) i.local) }
    ensures profile { IfOk result (λ i. IsProfileOf (diagram_of r.now) (row_of (system_of s.now)) i.profile) }
    ensures below { IfOk result (λ i. AreProfilesBelow (diagram_of r.now) (system_of s.now) i.below.items) }
    ensures codes { IfOk result (λ i. AllZip (IsCodeOf r.now) (rows_inside (system_of s.now))
        (map system_tree i.codes.items)) }
{
    let mut inner = Vec::new(alloc);
    let mut children = Vec::new(alloc);
    let mut below = Vec::new(alloc);
    for child in &s.children {
        is_child(r, s, child);
        let Inside {
            local: _local,
            profile,
            below: mut deeper,
            codes: mut codes,
        } = codes_inside(alloc, r, child)?;
        children.push(profile.copied(alloc)?)?;
        below.push(profile)?;
        below.append(&mut deeper)?;
        inner.append(&mut codes)?;
    }
    let local = local_with(alloc, r, s, &children)?;
    let profile = profile_of(alloc, r, s, &children)?;
    let parts = Parts {
        local: &local,
        profile: &profile,
        children: &children,
    };
    let code = parts.code(alloc, r, s)?;
    let mut codes = Vec::new(alloc);
    codes.push(code)?;
    codes.append(&mut inner)?;
    Ok(Inside {
        local,
        profile,
        below,
        codes,
    })
}

// What the code of a system is made from: its own rows, its profile, and those of its children.
#[derive(Clone, Copy, Drop)]
struct Parts<'a> {
    local: &'a Local,
    profile: &'a Profile,
    children: &'a [Profile],
}

impl<'a> Parts<'a> {
    // The code of the system.
    fn code(&self, alloc: Global, r: &Resolved, s: &Subsystem) -> Result<SystemCode, Memory>
        requires no_loop { HasNoLoop (needs_of (diagram_of r.now)) }
        requires system { Agrees r.now.tree.table.rows (system_of s.now) }
        requires inside { IsInTable r.now.tree.table.rows (row_of (system_of s.now)) }
        requires listed { Contains (systems r.now.tree.table.rows) (row_of (system_of s.now)) }
        requires children { AreProfiles (diagram_of r.now) (row_of (system_of s.now))
            self.now.children.now }
        requires is_local { self.now.local.now
            ≡ local_of (diagram_of r.now) r.now.times.delays (row_of (system_of s.now))
            (headers_with (diagram_of r.now) self.now.children.now) }
        requires local { IsLocalOf r.now (row_of (system_of s.now)) self.now.local.now }
        requires profile { IsProfileOf (diagram_of r.now) (row_of (system_of s.now))
            self.now.profile.now }
        ensures { IfOk result (λ code. IsCodeOf r.now (row_of (system_of s.now)) (system_tree code)) }
    {
        r.is_resolved();
        let nodes = system_nodes(alloc, r, s, self.children)?;
        let schedule = schedule_of_system(alloc, self.local, self.profile, &nodes)?;
        emit_system(alloc, self.local, self.profile, &schedule)
    }
}

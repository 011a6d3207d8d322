// The systems of a model.
ghost use Rattle.std.specs.Prelude.{◌≡◌, ◌++◌, Contains, IfOk, OnOk, map, reverse};
ghost use Rattle.diagram_meaning.specs.Nested.{Agrees, row_of, system_of};
ghost use Rattle.modules_profile.specs.Systems.{children_of, systems};
ghost use Rattle.modules_profile.specs.TreeProfiles.{rows_inside};
ghost use Rattle.lustre_emitter.specs.Listed.{listed_rows, AreAgreed};

use base_core::Memory;
use diagram_meaning::{Resolved, Subsystem};
use modules_profile::tree_has_all_systems;
use std::alloc::Global;

// The root.
fn root(r: &Resolved) -> &Subsystem
    ensures { result.now ≡ r.now.tree.root }
{
    r.tree.root()
}

// A system directly inside one that agrees with the table agrees with it.
fn is_child(r: &Resolved, s: &Subsystem, child: &Subsystem)
    requires system { Agrees r.now.tree.table.rows (system_of s.now) }
    requires child { Contains (children_of (system_of s.now)) (system_of child.now) }
    ensures { Agrees r.now.tree.table.rows (system_of child.now) }
{}

// Adds a system and all systems inside it, each before those inside it, in the order of the file.
fn add_systems<'a>(
    r: &Resolved,
    s: &'a Subsystem,
    list: &mut Vec<&'a Subsystem>,
) -> Result<(), Memory>
    requires system { Agrees r.now.tree.table.rows (system_of s.now) }
    requires before { AreAgreed r.now.tree.table.rows list.old.items }
    ensures rows { OnOk result (listed_rows list.new.items
        ≡ listed_rows list.old.items ++ rows_inside (system_of s.now)) }
    ensures agree { OnOk result (AreAgreed r.now.tree.table.rows list.new.items) }
{
    list.push(s)?;
    for child in &s.children {
        is_child(r, s, child);
        add_systems(r, child, list)?;
    }
    Ok(())
}

/// The systems of a model, from the last one to the root: each after those inside it.
pub(crate) fn systems_of<'a>(alloc: Global, r: &'a Resolved) -> Result<Vec<&'a Subsystem>, Memory>
    ensures rows { IfOk result (λ v. listed_rows v.items
        ≡ reverse (systems r.now.tree.table.rows)) }
    ensures agree { IfOk result (λ v. AreAgreed r.now.tree.table.rows v.items) }
{
    r.is_resolved();
    tree_has_all_systems();
    let mut list = Vec::new(alloc);
    add_systems(r, root(r), &mut list)?;
    list.reverse();
    Ok(list)
}

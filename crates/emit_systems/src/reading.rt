ghost use Rattle.std.specs.Prelude.{◌≡◌, Contains};
ghost use Rattle.diagram_meaning.specs.Nested.{Agrees, row_of, system_of};
ghost use Rattle.modules_profile.specs.Systems.{children_of, systems, IsInTable};

use diagram_meaning::{Resolved, Subsystem};

/// The root.
pub(crate) fn root(r: &Resolved) -> &Subsystem
    ensures { result.now ≡ r.now.tree.root }
{
    r.tree.root()
}

/// A system directly inside one of a tree is one of that tree.
pub(crate) fn is_child(r: &Resolved, s: &Subsystem, child: &Subsystem)
    requires system { Agrees r.now.tree.table.rows (system_of s.now) }
    requires child { Contains (children_of (system_of s.now)) (system_of child.now) }
    ensures system { Agrees r.now.tree.table.rows (system_of child.now) }
    ensures inside { IsInTable r.now.tree.table.rows (row_of (system_of child.now)) }
    ensures listed { Contains (systems r.now.tree.table.rows) (row_of (system_of child.now)) }
{}

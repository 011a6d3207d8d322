// A system with the names of its node.
ghost use Rattle.std.specs.Prelude.{IfOk};
ghost use Rattle.diagram_meaning.specs.Nested.{Agrees, row_of, system_of};
ghost use Rattle.diagram_meaning.specs.ResolvedTree.{diagram_of};
ghost use Rattle.lustre_system_nodes.specs.Named.{IsNamed};

use crate::names::Names;
use crate::node_names::names_of;
use crate::parts::{Parts, parts_of};
use base_core::Memory;
use diagram_meaning::{Resolved, Subsystem};
use std::alloc::Global;

/// A system by what its node is made from, with the names of the node.
#[derive(Drop)]
pub struct NamedSystem {
    pub(crate) parts: Parts,
    pub(crate) names: Names,
}

/// A system of a resolved tree with the names of its node.
pub fn named_system(alloc: Global, r: &Resolved, s: &Subsystem) -> Result<NamedSystem, Memory>
    requires { Agrees r.now.tree.table.rows (system_of s.now) }
    ensures { IfOk result
        (λ named. IsNamed (diagram_of r.now) (row_of (system_of s.now)) named) }
{
    let parts = parts_of(alloc, r, s)?;
    let names = names_of(alloc, r, &parts)?;
    Ok(NamedSystem { parts, names })
}

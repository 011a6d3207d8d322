// For each subsystem the first one that is the same.
ghost use Rattle.std.specs.Prelude.{◌≡◌, ◌<◌, IfOk, OnOk, length};
ghost use Rattle.diagram_blocks.specs.Kinds.{is_subsystem as is_subsystem_kind};
ghost use Rattle.diagram_meaning.specs.ResolvedTree.{diagram_of};
ghost use Rattle.diagram_meaning.specs.Rows.{row_at};
ghost use Rattle.diagram_same.specs.Classes.{AreChained, IsClassOf};
ghost use Rattle.diagram_same.specs.Same.{AreFirsts};

use crate::classes::Classes;
use crate::interior::interior_of;
use crate::reading::row_count;
use crate::signature::signature_of;
use base_core::Memory;
use diagram_blocks::Kind;
use diagram_meaning::Resolved;
use std::alloc::Global;

/// For each subsystem row, in order, the first subsystem that is the same.
pub fn firsts(alloc: Global, r: &Resolved) -> Result<Vec<u32>, Memory>
    ensures { IfOk result (λ v. AreFirsts (diagram_of r.now) v.items) }
{
    let mut classes = Classes::new(alloc);
    let mut firsts = Vec::new(alloc);
    for e in 0..row_count(r) {
        if is_subsystem(r, e) {
            firsts.push(first_of(&mut classes, r, e)?)?;
        }
    }
    Ok(firsts)
}

/// Whether row `e` is a subsystem.
fn is_subsystem(r: &Resolved, e: u32) -> bool
    requires { e < length r.now.tree.table.rows }
    ensures { result ≡ is_subsystem_kind (row_at r.now.tree.table.rows e).kind }
{
    matches!(r.row(e).kind, Kind::SubSystem(_))
}

/// The first subsystem of the class of `e`, which is a class of its own where no other one is the same.
fn first_of(classes: &mut Classes, r: &Resolved, e: u32) -> Result<u32, Memory>
    requires row { e < length r.now.tree.table.rows }
    requires chained { AreChained (diagram_of r.now) classes.old }
    ensures chained { OnOk result (AreChained (diagram_of r.now) classes.new) }
    ensures first { IfOk result
        (λ f. IsClassOf (diagram_of r.now) classes.old.list.items classes.new.list.items e f) }
{
    let inside = interior_of(r, e);
    let signature = signature_of(r, inside);
    if let Some(first) = classes.find(r, inside, signature) {
        return Ok(first);
    }
    classes.add(inside, signature)?;
    Ok(e)
}

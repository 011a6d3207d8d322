// Classes of subsystems that are the same, found by their signatures.
ghost use Rattle.std.specs.Prelude.{◌≡◌, ◌++◌, ◌∷◌, [], ℕ, IfNone, IfSome, None, OnOk, nat_eq};
ghost use Rattle.indexmap.specs.IndexMap.{get};
ghost use Rattle.diagram_meaning.specs.Diagram.{Diagram};
ghost use Rattle.diagram_meaning.specs.ResolvedTree.{diagram_of};
ghost use Rattle.diagram_same.specs.Classes.{AreChained, HasClass, HasNoClass, rows_of};
ghost use Rattle.diagram_same.specs.Interiors.{IsInterior};
ghost use Rattle.diagram_same.specs.Signatures as signatures;

use crate::alike::are_same;
use crate::interior::Interior;
use base_core::Memory;
use diagram_meaning::Resolved;
use indexmap::IndexMap;
use std::alloc::Global;

/// The first subsystem of a class, and the place of the class before it that has the same signature.
#[derive(Clone, Copy, Drop)]
pub struct Class {
    pub(crate) first: Interior,
    pub(crate) earlier: Option<usize>,
}

/// Classes in the order of their first subsystems, and for each signature the place of the last one that has it.
#[derive(Drop)]
pub struct Classes {
    pub(crate) list: Vec<Class>,
    pub(crate) latest: IndexMap<u64, usize>,
}

impl Classes {
    /// No classes.
    pub(crate) fn new(alloc: Global) -> Classes
        ensures list { result.list.items ≡ [] }
        ensures latest { (s : ℕ) → get nat_eq result.latest s ≡ None }
    {
        Classes {
            list: Vec::new(alloc),
            latest: IndexMap::new(alloc),
        }
    }

    /// The first subsystem of the class of the one with these rows inside, which has this signature.
    pub(crate) fn find(&self, r: &Resolved, inside: Interior, signature: u64) -> Option<u32>
        requires inside { IsInterior r.now.tree.table.rows inside.row inside.end }
        requires signature { signature ≡ signatures.signature_of (diagram_of r.now) inside.row }
        requires chained { AreChained (diagram_of r.now) self.now }
        ensures found { IfSome result (λ f. HasClass (diagram_of r.now) self.now.list.items inside.row f) }
        ensures none { IfNone result (HasNoClass (diagram_of r.now) self.now.list.items inside.row) }
    {
        let mut place = self.latest.get(&signature).copied();
        while let Some(at) = place {
            let class = self.list[at];
            if are_same(r, class.first, inside) {
                return Some(class.first.row);
            }
            place = class.earlier;
        }
        None
    }

    /// One class more, of the subsystem with these rows inside, which has this signature.
    pub(crate) fn add(&mut self, first: Interior, signature: u64) -> Result<(), Memory>
        ensures rows { OnOk result (rows_of self.new.list.items ≡ rows_of self.old.list.items ++ first.row ∷ []) }
        ensures chained { OnOk result ((d : Diagram) → IsInterior d.rows first.row first.end →
            signature ≡ signatures.signature_of d first.row → AreChained d self.old → AreChained d self.new) }
    {
        let earlier = self.latest.get(&signature).copied();
        self.latest.insert(signature, self.list.len())?;
        self.list.push(Class { first, earlier })?;
        Ok(())
    }
}

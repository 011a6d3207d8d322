// Definitions in the order of a text, each found by its name.
ghost use Rattle.std.specs.Prelude.{◌≡◌, ◌++◌, ◌∷◌, [], ℕ, List, false, map, None, Some, MatchOption, slice_get, bytes_eq, OnOk, OnErr};
ghost use Rattle.std.specs.List.{position_from};
ghost use Rattle.c_syntax.specs.Outputs.{has_name};

use base_core::Memory;
use c_outputs::NameTable;
use c_syntax::{Field, Procedure, Pure, StructDef};
use std::alloc::Global;

/// What a text defines under a name.
pub(crate) trait Named {
    ghost name: { Self → List ℕ };
}

impl Named for Pure {
    ghost name = { λ p. p.name };
}

impl Named for StructDef {
    ghost name = { λ d. d.name };
}

impl Named for Field {
    ghost name = { λ f. f.name };
}

impl Named for Procedure {
    ghost name = { λ p. p.name };
}

/// Definitions of one kind in order, with the table of their names.
#[derive(Drop)]
pub(crate) struct Table<'a, T: Named> {
    pub(crate) items: Vec<T>,
    names: NameTable<'a>,
    ghost named: { names ≡ map T.name items.items },
}

impl<'a, T: Named + Drop> Table<'a, T> {
    /// No definitions.
    pub(crate) fn new(alloc: Global) -> Table<'a, T>
        ensures { result.items.items ≡ [] }
    {
        Table {
            items: Vec::new(alloc),
            names: NameTable::new(alloc),
        }
    }

    /// Whether a definition has this name.
    pub(crate) fn contains(&self, name: &[u8]) -> bool
        ensures { result ≡ has_name (map T.name self.now.items.items) name.now }
    {
        self.names.contains(name)
    }

    /// The position of the definition of this name.
    pub(crate) fn position(&self, name: &[u8]) -> Option<u32>
        ensures { result
            ≡ position_from (λ x. bytes_eq (T.name x) name.now) 0 self.now.items.items }
    {
        self.names.position(name)
    }

    /// The definition of this name, with its position.
    pub(crate) fn find(&self, name: &[u8]) -> Option<(u32, &T)>
        ensures { let place = position_from (λ x. bytes_eq (T.name x) name.now) 0
            self.now.items.items in
            MatchOption result (place ≡ None) (λ found. (place ≡ Some found.0)
            × (slice_get self.now.items.items found.0 ≡ Some found.1.now)) }
    {
        match self.position(name) {
            Some(k) => Some((k, &self.items[k as usize])),
            None => None,
        }
    }

    /// One more definition, whose name is new. Where memory runs out, the table stays as it is.
    pub(crate) fn push(&mut self, name: &'a [u8], item: T) -> Result<(), Memory>
        requires new { has_name (map T.name self.old.items.items) name.now ≡ false }
        requires named { T.name item ≡ name.now }
        ensures pushed { OnOk result (self.new.items.items ≡ self.old.items.items ++ item ∷ []) }
        ensures kept { OnErr result (self.new.items.items ≡ self.old.items.items) }
    {
        self.items.push(item)?;
        match self.names.push(name) {
            Ok(()) => Ok(()),
            Err(memory) => {
                self.items.pop();
                Err(memory)
            }
        }
    }

    /// The definitions themselves, in their order.
    pub(crate) fn into_items(self) -> Vec<T>
        ensures { result ≡ self.entry.items }
    {
        let Table { items, .. } = self;
        items
    }

    /// The definitions themselves, in their order, and the table of their names.
    pub(crate) fn into_parts(self) -> (Vec<T>, NameTable<'a>)
        ensures items { result.0 ≡ self.entry.items }
        ensures names { result.1 ≡ map T.name self.entry.items.items }
    {
        let Table { items, names } = self;
        (items, names)
    }
}

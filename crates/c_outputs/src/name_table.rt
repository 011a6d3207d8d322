// Names by their positions.
ghost use Rattle.std.specs.Prelude.{◌≡◌, ◌++◌, ◌∷◌, ◌||◌, [], ℕ, List, false, map, OnOk, OnErr, IfOk, bytes_eq};
ghost use Rattle.std.specs.List.{position_from};
ghost use Rattle.c_syntax.specs.Outputs.{has_name};

use base_core::{Memory, Text};
use indexmap::IndexSet;
use std::alloc::Global;
use std::marker::Model;

/// Different names of a text in order, each found at its position: their list.
#[derive(Drop)]
pub struct NameTable<'a> {
    names: IndexSet<&'a [u8]>,
}

impl<'a> Model for NameTable<'a> {
    ghost use Rattle.std.specs.Prelude.{ℕ, List, ◌<◌, ◌^◌, length, map};

    ghost Value = { List (List ℕ) };

    ghost view = { λ t. map (λ name. name.now) t.names.keys };

    ghost invariant = { λ t. length (map (λ name. name.now) t.names.keys) < 2 ^ 32 };
}

impl<'a> NameTable<'a> {
    /// No names.
    pub fn new(alloc: Global) -> NameTable<'a>
        ensures { result ≡ [] }
    {
        NameTable {
            names: IndexSet::new(alloc),
        }
    }

    /// The position of a name.
    pub fn position(&self, name: &[u8]) -> Option<u32>
        ensures { result ≡ position_from (bytes_eq name.now) 0 self.now }
    {
        match self.names.get_index_of(name) {
            Some(position) => Some(position as u32),
            None => None,
        }
    }

    /// Whether there is this name.
    pub fn contains(&self, name: &[u8]) -> bool
        ensures { result ≡ has_name self.now name.now }
    {
        self.names.contains(name)
    }

    /// One more name, after the others; a name that is there already stays where it is, and so do all where memory runs
    /// out.
    pub fn push(&mut self, name: &'a [u8]) -> Result<(), Memory>
        ensures new { OnOk result (has_name self.old name.now ≡ false → self.new ≡ self.old ++ name.now
            ∷ []) }
        ensures added { OnOk result ((n : List ℕ) →
            has_name self.new n ≡ (bytes_eq n name.now || has_name self.old n)) }
        ensures kept { OnErr result (self.new ≡ self.old) }
    {
        if self.names.len() >= u32::MAX as usize {
            return Err(Memory);
        }
        self.names.insert(name)?;
        Ok(())
    }
}

/// A table that has the same names as a list, in which a name may occur twice.
pub fn table_of<'a>(alloc: Global, names: &[&'a [u8]]) -> Result<NameTable<'a>, Memory>
    ensures { IfOk result (λ table. (n : List ℕ) →
        has_name table n ≡ has_name (map (λ x. x.now) names.now) n) }
{
    let mut table = NameTable::new(alloc);
    for name in names {
        table.push(name)?;
    }
    Ok(table)
}

/// A table of texts.
pub fn table_of_texts<'a>(alloc: Global, texts: &'a [Text]) -> Result<NameTable<'a>, Memory>
    ensures { IfOk result (λ table. (n : List ℕ) → has_name table n ≡ has_name texts.now n) }
{
    let mut table = NameTable::new(alloc);
    for text in texts {
        table.push(text.bytes())?;
    }
    Ok(table)
}

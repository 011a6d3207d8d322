// Codes of systems, found by the names of their structs.
ghost use Rattle.std.specs.Prelude.{◌≡◌, IfOk, length};
ghost use Rattle.emit_shape.specs.SystemTree.{system_tree};
ghost use Rattle.emit_shape.specs.Assembled as assembled;
ghost use Rattle.emit_linker.specs.Places.{AreFound, IsNoCode, place_in, trees};

use crate::lists::{number_at, small};
use crate::tables::{Names, firsts_of, names_of};
use base_core::Memory;
use emit_shape::SystemCode;
use std::alloc::Global;

/// The codes of all systems.
#[derive(Drop)]
pub(crate) struct Codes<'a> {
    pub(crate) list: &'a [SystemCode],
    none: &'a SystemCode,
    names: Names<'a>,
    firsts: Vec<u32>,
    ghost found: { AreFound list.now none.now (place_in names.value) firsts.items },
}

impl<'a> Codes<'a> {
    /// These codes, where an empty one stands for those past the end.
    pub(crate) fn new(
        alloc: Global,
        list: &'a [SystemCode],
        none: &'a SystemCode,
    ) -> Result<Codes<'a>, Memory>
        requires { IsNoCode none.now }
        ensures { IfOk result (λ c. c.list.now ≡ list.now) }
    {
        small(list.len())?;
        let firsts = firsts_of(alloc, list)?;
        let names = names_of(alloc, list)?;
        Ok(Codes {
            list,
            none,
            names,
            firsts,
        })
    }

    /// How many codes there are.
    pub(crate) fn count(&self) -> u32
        ensures { result ≡ length (trees self.now.list.now) }
    {
        self.list.len() as u32
    }

    /// The code at a position.
    pub(crate) fn at(&self, i: u32) -> &'a SystemCode
        ensures { system_tree result.now ≡ assembled.code_at (trees self.now.list.now) i }
    {
        match self.list.get(i as usize) {
            Some(code) => code,
            None => self.none,
        }
    }

    /// The position of the first code of a name; where there is none, 0.
    pub(crate) fn named(&self, name: &[u8]) -> u32
        ensures { result ≡ assembled.code_named (trees self.now.list.now) name.now }
    {
        match self.names.get(name) {
            Some(position) => *position,
            None => 0,
        }
    }

    /// The position of the first procedure of a code.
    pub(crate) fn first_procedure(&self, i: u32) -> u32
        ensures { result ≡ assembled.first_procedure (trees self.now.list.now) i }
    {
        number_at(&self.firsts, i)
    }

    /// The position of the struct of a code.
    pub(crate) fn struct_position(&self, i: u32) -> u32
        ensures { result ≡ assembled.struct_position (trees self.now.list.now) i }
    {
        self.count().saturating_sub(i).saturating_sub(1)
    }
}

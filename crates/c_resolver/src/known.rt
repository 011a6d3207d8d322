// What is defined before a place.
ghost use Rattle.std.specs.Prelude.{◌≡◌, map};

use crate::table::Table;
use c_outputs::NameTable;
use c_syntax::{Procedure, Pure, StructDef};

/// The definitions before a place; of each struct also the names of its fields, and of each procedure the length of the
/// longest chain of calls that begins with it.
#[derive(Drop)]
pub(crate) struct Known<'a> {
    pub(crate) pures: Table<'a, Pure>,
    pub(crate) structs: Table<'a, StructDef>,
    pub(crate) field_names: Vec<NameTable<'a>>,
    pub(crate) procedures: Table<'a, Procedure>,
    pub(crate) chains: Vec<u32>,
    pub(crate) ghost fields_named: { field_names.items
        ≡ map (λ d. map (λ f. f.name) d.fields) structs.items.items },
}

/// The names in reach of a body: the definitions before it, the position of its struct, and its parameters.
#[derive(Drop)]
pub(crate) struct Scope<'k, 'a> {
    pub(crate) known: &'k Known<'a>,
    pub(crate) of: Option<u32>,
    pub(crate) params: &'k NameTable<'a>,
}

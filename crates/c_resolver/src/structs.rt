// Structs.
ghost use Rattle.std.specs.Prelude.{◌≡◌, ◌++◌, ◌∷◌, [], map, filter_map, false, OnOk, IfOk, bytes_eq, codes};
ghost use Rattle.c_syntax.specs.Outputs.{has_name};
ghost use Rattle.c_syntax.specs.PlainField.{field_trees};
ghost use Rattle.c_rules.specs.Resolve as rules;
ghost use Rattle.c_grammar.specs.WrittenTrees.{field_of, struct_of};
ghost use Rattle.c_resolver.specs.Fields.{names_in, fields_behind};
ghost use Rattle.c_rules.specs.Gives.{Gives};
ghost use Rattle.c_resolver.specs.Scopes.{known_of};

use crate::field_rules::{FieldScope, numbers_of};
use crate::known::Known;
use crate::numbers::number_names;
use crate::roots::is_root;
use crate::table::Table;
use base_core::{Memory, Text};
use c_grammar::{ReadCFault, WrittenField, WrittenStruct};
use c_outputs::{NameTable, output_names};
use c_rules::{fault_at, on_line};
use c_syntax::{CKind, Field, FieldKind, StructDef};
use std::alloc::Global;

/// One more field, whose name is new.
fn push_field<'a>(
    alloc: Global,
    fields: &mut Table<'a, Field>,
    field: &WrittenField<'a>,
    kind: FieldKind,
) -> Result<(), Memory>
    requires { has_name (map (λ f. f.name) fields.old.items.items) field.now.name.now ≡ false }
    ensures { OnOk result (field_trees fields.new.items.items ≡ field_trees fields.old.items.items
        ++ record { name = field.now.name.now; kind = kind } ∷ []) }
{
    let name = Text::copy_of(alloc, field.name)?;
    fields.push(field.name, Field { name, kind })
}

/// Adds what more fields of a struct stand for to those before them.
fn resolve_fields<'a>(
    alloc: Global,
    scope: &FieldScope,
    fields: &[WrittenField<'a>],
    resolved: &mut Table<'a, Field>,
) -> Result<(), ReadCFault>
    ensures { let before = resolved.old.items.items in
        Gives (λ _. field_trees resolved.new.items.items) result
        (fields_behind (known_of scope.now.known.now) scope.now.is_root
        (names_in scope.now.numbers.now) (field_trees before)
        (map (λ f. f.name) before) (map field_of fields.now)) }
{
    for field in fields {
        let kind = on_line(field.line, scope.resolve_field(resolved, field))?;
        push_field(alloc, resolved, field, kind)?;
    }
    Ok(())
}

/// Adds what the fields of a struct stand for, the names of the outputs among them found first.
fn resolve_all_fields<'a>(
    alloc: Global,
    known: &Known<'a>,
    d: &WrittenStruct<'a>,
    resolved: &mut Table<'a, Field>,
) -> Result<(), ReadCFault>
    ensures { let before = resolved.old.items.items in
        Gives (λ _. field_trees resolved.new.items.items) result
        (fields_behind (known_of known.now) (bytes_eq d.now.name.now (codes "root"))
        (filter_map rules.number_name (struct_of d.now).fields) (field_trees before)
        (map (λ f. f.name) before) (struct_of d.now).fields) }
{
    let fields = d.fields.as_slice();
    let names = number_names(alloc, fields)?;
    let outputs = output_names(alloc, names.as_slice())?;
    let numbers = numbers_of(alloc, names, outputs.as_slice())?;
    let scope = FieldScope {
        known,
        is_root: is_root(d.name),
        numbers: &numbers,
    };
    resolve_fields(alloc, &scope, fields, resolved)
}

/// What a struct stands for, with the names of its fields.
fn resolve_struct<'a>(
    alloc: Global,
    known: &Known<'a>,
    d: &WrittenStruct<'a>,
) -> Result<(StructDef, NameTable<'a>), ReadCFault>
    ensures resolved { Gives (λ r. r.0) result (rules.resolve_struct (known_of known.now) (struct_of d.now)) }
    ensures new { OnOk result (has_name (map (λ e. e.name) known.now.structs.items.items) d.now.name.now
        ≡ false) }
    ensures named { IfOk result (λ r. r.0.name ≡ d.now.name.now) }
    ensures fields { IfOk result (λ r. r.1 ≡ map (λ f. f.name) r.0.fields) }
{
    if known.structs.contains(d.name) {
        return Err(ReadCFault::Refused(fault_at(d.line, CKind::Name)));
    }
    let name = Text::copy_of(alloc, d.name)?;
    let mut table = Table::new(alloc);
    resolve_all_fields(alloc, known, d, &mut table)?;
    let (fields, names) = table.into_parts();
    Ok((StructDef { name, fields }, names))
}

impl<'a> Known<'a> {
    /// One more struct, whose name is new and whose fields have these names.
    fn push_struct(
        &mut self,
        name: &'a [u8],
        def: StructDef,
        names: NameTable<'a>,
    ) -> Result<(), Memory>
        requires new { has_name (map (λ d. d.name) self.old.structs.items.items) name.now ≡ false }
        requires named { def.name ≡ name.now }
        requires fields { names ≡ map (λ f. f.name) def.fields }
        ensures { OnOk result (known_of self.new
            ≡ record (known_of self.old) {
              structs = (known_of self.old).structs ++ def
                  ∷ [];
            }) }
    {
        let count = self.field_names.len();
        self.field_names.push(names)?;
        match self.structs.push(name, def) {
            Ok(()) => Ok(()),
            Err(memory) => {
                self.field_names.truncate(count);
                Err(memory)
            }
        }
    }
}

/// Makes structs known, each to those after it.
pub(crate) fn resolve_structs<'a>(
    alloc: Global,
    known: &mut Known<'a>,
    structs: &[WrittenStruct<'a>],
) -> Result<(), ReadCFault>
    ensures { Gives (λ _. known_of known.new) result
        (rules.resolve_structs (known_of known.old) (map struct_of structs.now)) }
{
    for d in structs {
        let (def, names) = resolve_struct(alloc, known, d)?;
        known.push_struct(d.name, def, names)?;
    }
    Ok(())
}

// What a field of a struct stands for.
ghost use Rattle.std.specs.Prelude.{◌≡◌, map, not, ◌||◌, Some, None, if◌then◌else◌, IfOk};
ghost use Rattle.c_syntax.specs.Outputs as named;
ghost use Rattle.c_rules.specs.Resolve as rules;
ghost use Rattle.c_grammar.specs.WrittenTrees.{kind_of, field_of};
ghost use Rattle.c_resolver.specs.Fields.{names_in, named_kind};
ghost use Rattle.c_resolver.specs.Scopes.{known_of};

use crate::known::Known;
use crate::numbers::{Numbers, is_number};
use crate::table::Table;
use base_core::{Memory, Text};
use c_grammar::{WrittenField, WrittenKind};
use c_outputs::{looks_like_output, table_of_texts};
use c_rules::unless_fault;
use c_syntax::{CKind, Field, FieldKind};
use std::alloc::Global;

/// The most items of an array.
const ARRAY_LIMIT: u64 = 65_535;

/// The number fields of these names, with their outputs.
pub(crate) fn numbers_of<'n, 'a>(
    alloc: Global,
    names: Vec<&'a [u8]>,
    outputs: &'n [Text],
) -> Result<Numbers<'n, 'a>, Memory>
    requires { outputs.now ≡ named.output_names (map (λ x. x.now) names.items) }
    ensures { IfOk result (λ numbers. names_in numbers ≡ map (λ x. x.now) names.entry.items) }
{
    let outputs = table_of_texts(alloc, outputs)?;
    Ok(Numbers { names, outputs })
}

/// Whether a field of the root's struct may have this name.
fn may_be_named(numbers: &Numbers, is_number: bool, name: &[u8]) -> bool
    ensures { result ≡ named.may_be_named (names_in numbers.now) is_number name.now }
{
    if !looks_like_output(name) {
        return true;
    }
    is_number && numbers.outputs.contains(name)
}

/// Whether a field may have its name, in the root's struct or in another.
fn may_stand(is_root: bool, numbers: &Numbers, field: &WrittenField) -> bool
    ensures { result
        ≡ (not is_root || named.may_be_named (names_in numbers.now)
        (rules.is_number_written (kind_of field.now.kind)) field.now.name.now) }
{
    if !is_root {
        return true;
    }
    may_be_named(numbers, is_number(field.kind), field.name)
}

/// The length of an array: it has at least one item, and no more than the limit.
fn array_length(count: u64) -> Option<u32>
    ensures { result ≡ (if rules.is_length count then Some count else None) }
{
    if count == 0 || count > ARRAY_LIMIT {
        None
    } else {
        Some(count as u32)
    }
}

/// What the kind of a field stands for.
fn resolve_kind(known: &Known, kind: WrittenKind) -> Result<FieldKind, CKind>
    ensures { result ≡ rules.resolve_kind (known_of known.now) (kind_of kind.entry) }
{
    match kind {
        WrittenKind::Number(ty) => Ok(FieldKind::Number(ty)),
        WrittenKind::Array(ty, count) => match array_length(count.value) {
            Some(length) => Ok(FieldKind::Array(ty, length)),
            None => Err(CKind::TypeRule),
        },
        WrittenKind::Struct(name) => match known.structs.position(name) {
            Some(k) => Ok(FieldKind::Struct(k)),
            None => Err(CKind::Name),
        },
    }
}

/// What the fields of a struct are judged by: the definitions before it, whether it is the root's, and its number fields.
#[derive(Drop)]
pub(crate) struct FieldScope<'k, 's, 'n, 'a> {
    pub(crate) known: &'k Known<'a>,
    pub(crate) is_root: bool,
    pub(crate) numbers: &'s Numbers<'n, 'a>,
}

impl<'k, 's, 'n, 'a> FieldScope<'k, 's, 'n, 'a> {
    /// What the kind of a field stands for, where the field keeps the rules after these fields.
    pub(crate) fn resolve_field(
        &self,
        earlier: &Table<Field>,
        field: &WrittenField,
    ) -> Result<FieldKind, CKind>
        ensures { rules.resolve_field (known_of self.now.known.now) self.now.is_root
            (names_in self.now.numbers.now)
            (map (λ f. f.name) earlier.now.items.items) (field_of field.now)
            ≡ named_kind field.now.name.now result }
    {
        unless_fault(!earlier.contains(field.name), CKind::Name)?;
        let kind = resolve_kind(self.known, field.kind)?;
        let may_stand = may_stand(self.is_root, self.numbers, field);
        unless_fault(may_stand, CKind::TypeRule)?;
        Ok(kind)
    }
}

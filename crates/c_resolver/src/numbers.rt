// The number fields of a struct.
ghost use Rattle.std.specs.Prelude.{◌≡◌, ℕ, List, map, filter_map, IfOk};
ghost use Rattle.c_syntax.specs.Outputs as named;
ghost use Rattle.c_rules.specs.Resolve as rules;
ghost use Rattle.c_grammar.specs.WrittenTrees.{field_of, kind_of};

use c_grammar::{WrittenField, WrittenKind};
use c_outputs::NameTable;
use std::alloc::{AllocError, Global};

/// The names of the number fields of a struct, and the names of the outputs among them.
#[derive(Drop)]
pub(crate) struct Numbers<'n, 'a> {
    pub(crate) names: Vec<&'a [u8]>,
    pub(crate) outputs: NameTable<'n>,
    pub(crate) ghost counted: { (n : List ℕ) →
        named.has_name outputs n
        ≡ named.has_name (named.output_names (map (λ x. x.now) names.items)) n },
}

/// Whether a field is written as a number.
pub(crate) fn is_number(kind: WrittenKind) -> bool
    ensures { result ≡ rules.is_number_written (kind_of kind.entry) }
{
    match kind {
        WrittenKind::Number(_) => true,
        WrittenKind::Array(_, _) | WrittenKind::Struct(_) => false,
    }
}

/// The names of the fields that are written as numbers.
pub(crate) fn number_names<'a>(
    alloc: Global,
    fields: &[WrittenField<'a>],
) -> Result<Vec<&'a [u8]>, AllocError>
    ensures { IfOk result (λ names. map (λ n. n.now) names.items
        ≡ filter_map rules.number_name (map field_of fields.now)) }
{
    let mut names = Vec::new(alloc);
    for field in fields {
        if is_number(field.kind) {
            names.push(field.name)?;
        }
    }
    Ok(names)
}

// The structs of codes at their places.
ghost use Rattle.std.specs.Prelude.{◌≡◌, IfOk, map};
ghost use Rattle.c_syntax.specs.PlainField.{field_trees};
ghost use Rattle.emit_shape.specs.SystemTree.{system_tree};
ghost use Rattle.emit_shape.specs.Assembled as assembled;
ghost use Rattle.emit_linker.specs.Places.{trees};

use crate::codes::Codes;
use base_core::{Memory, Text};
use c_syntax::{Field, FieldKind, StructDef};
use emit_shape::SystemCode;
use std::alloc::Global;

/// What a field of a name holds, in the program.
fn moved_kind(codes: &Codes<'_>, name: &[u8], kind: FieldKind) -> FieldKind
    ensures { result ≡ assembled.moved_kind (trees codes.now.list.now) name.now kind }
{
    match kind {
        FieldKind::Number(of) => FieldKind::Number(of),
        FieldKind::Array(of, count) => FieldKind::Array(of, count),
        FieldKind::Struct(_) => FieldKind::Struct(codes.struct_position(codes.named(name))),
    }
}

/// Fields as they are in the program.
fn moved_fields(alloc: Global, codes: &Codes<'_>, fields: &[Field]) -> Result<Vec<Field>, Memory>
    ensures { IfOk result (λ v. field_trees v.items
        ≡ map (λ f.
        record {
          name = f.name;
          kind = assembled.moved_kind (trees codes.now.list.now) f.name f.kind;
        })
        (field_trees fields.now)) }
{
    let mut list = Vec::new(alloc);
    for field in fields {
        list.push(Field {
            name: Text::copy_of(alloc, field.name.bytes())?,
            kind: moved_kind(codes, field.name.bytes(), field.kind),
        })?;
    }
    Ok(list)
}

/// The struct of a code in the program.
pub(crate) fn moved_struct(
    alloc: Global,
    codes: &Codes<'_>,
    code: &SystemCode,
) -> Result<StructDef, Memory>
    ensures { IfOk result (λ s. s
        ≡ assembled.moved_struct (trees codes.now.list.now) (system_tree code.now)) }
{
    let fields = moved_fields(alloc, codes, code.structure.fields.as_slice())?;
    Ok(StructDef {
        name: Text::copy_of(alloc, code.structure.name.bytes())?,
        fields,
    })
}

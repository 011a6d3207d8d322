// Where what each code names goes.
ghost use Rattle.std.specs.Prelude.{◌≡◌, ◌++◌, [], IfOk, OnOk, flat_map, length, map};
ghost use Rattle.c_syntax.specs.PlainField.{field_trees};
ghost use Rattle.emit_shape.specs.SystemTree.{system_tree};
ghost use Rattle.emit_shape.specs.Assembled as assembled;
ghost use Rattle.emit_linker.specs.Linked.{relocation};
ghost use Rattle.emit_linker.specs.Places.{trees};

use crate::child_names::child_names;
use crate::codes::Codes;
use crate::links::Links;
use crate::lists::small;
use crate::parts::{fields_of, outputs_of};
use crate::public::push_positions;
use base_core::Memory;
use c_syntax::Field;
use emit_shape::SystemCode;
use std::alloc::Global;

/// The outputs of the code of a name.
fn outputs_under<'a>(codes: &Codes<'a>, name: &[u8]) -> &'a [u32]
    ensures { result.now
        ≡ (assembled.code_at (trees codes.now.list.now)
        (assembled.code_named (trees codes.now.list.now) name.now)).outputs }
{
    outputs_of(codes.at(codes.named(name)))
}

/// The outputs of the code of each field.
fn field_outputs<'a>(
    alloc: Global,
    codes: &Codes<'a>,
    fields: &[Field],
) -> Result<Vec<&'a [u32]>, Memory>
    ensures { IfOk result (λ v. map (λ x. x.now) v.items
        ≡ map (λ f.
        (assembled.code_at (trees codes.now.list.now)
        (assembled.code_named (trees codes.now.list.now) f.name)).outputs)
        (field_trees fields.now)) }
{
    let mut list = Vec::new(alloc);
    for field in fields {
        list.push(outputs_under(codes, field.name.bytes()))?;
    }
    Ok(list)
}

/// The positions of the public procedures of the codes of some names.
fn offered_by(alloc: Global, codes: &Codes<'_>, names: &[&[u8]]) -> Result<Vec<u32>, Memory>
    ensures { IfOk result (λ v. v.items
        ≡ flat_map (λ name. assembled.public_positions (trees codes.now.list.now)
        (assembled.code_named (trees codes.now.list.now) name)) (map (λ n. n.now) names.now)) }
{
    let mut offered = Vec::new(alloc);
    for name in names {
        push_positions(alloc, codes, codes.named(name), &mut offered)?;
    }
    Ok(offered)
}

/// How many procedures a code has.
fn own_count(code: &SystemCode) -> Result<u32, Memory>
    ensures { IfOk result (λ n. n ≡ length (system_tree code.now).procedures) }
{
    small(code.procedures.len())
}

/// Where what the code at a position names goes.
pub(crate) fn links_of<'a>(alloc: Global, codes: &Codes<'a>, i: u32) -> Result<Links<'a>, Memory>
    ensures { IfOk result (λ links. relocation links
        ≡ assembled.relocation_of (trees codes.now.list.now) i) }
{
    let code = codes.at(i);
    let names = child_names(alloc, code)?;
    Ok(Links {
        own: own_count(code)?,
        first: codes.first_procedure(i),
        offered: offered_by(alloc, codes, &names)?,
        outputs: field_outputs(alloc, codes, fields_of(code))?,
        beyond: outputs_under(codes, b"".as_slice()),
        of: codes.struct_position(i),
    })
}

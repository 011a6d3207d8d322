// What a caller of the root gives and gets.
ghost use Rattle.std.specs.Prelude.{◌≡◌, ◌<◌, ◌^◌, ◌++◌, ◌∷◌, [], map, length, filter, Some, IfOk, OnOk};
ghost use Rattle.c_syntax.specs.Lawful.{IsLawful};
ghost use Rattle.c_syntax.specs.Plain.{program_tree, param_trees};
ghost use Rattle.c_syntax.specs.PlainField.{field_tree, field_trees};
ghost use Rattle.c_syntax.specs.RootFields.{is_number, number_names, output_fields, root_fields};
ghost use Rattle.c_checked.specs.Checked as checked;

use crate::outputs::output_names;
use base_core::{Memory, Text};
use base_fixed_point::FixType;
use c_checked::{Checked, procedure_named, root_fields};
use c_syntax::{CType, Field, FieldKind, Program};
use std::alloc::{AllocError, Global};

/// The numbers of a type of C, as a type without a binary point; int64_t is too wide for one.
fn fix_type(ty: CType) -> Option<FixType>
    ensures { result ≡ checked.fix_type ty }
{
    match ty {
        CType::I8 => Some(FixType {
            signed: true,
            bits: 8,
            frac: 0,
        }),
        CType::U8 => Some(FixType {
            signed: false,
            bits: 8,
            frac: 0,
        }),
        CType::I16 => Some(FixType {
            signed: true,
            bits: 16,
            frac: 0,
        }),
        CType::U16 => Some(FixType {
            signed: false,
            bits: 16,
            frac: 0,
        }),
        CType::I32 => Some(FixType {
            signed: true,
            bits: 32,
            frac: 0,
        }),
        CType::U32 => Some(FixType {
            signed: false,
            bits: 32,
            frac: 0,
        }),
        CType::I64 => None,
    }
}

/// The types of the numbers that parameters take, none of which is an int64_t.
fn input_types(alloc: Global, params: &[(Text, CType)]) -> Result<Vec<FixType>, Memory>
    ensures { IfOk result (λ types. map (λ q. checked.fix_type q.type) (param_trees params.now)
        ≡ map Some types.items) }
{
    let mut types = Vec::new(alloc);
    for param in params {
        let Some(ty) = fix_type(param.1) else {
            return Err(Memory);
        };
        types.push(ty)?;
    }
    Ok(types)
}

/// One more name, if this is the field of a number.
fn push_number<'a>(names: &mut Vec<&'a [u8]>, field: &'a Field) -> Result<(), AllocError>
    ensures { OnOk result (map (λ n. n.now) names.new.items ≡ map (λ n. n.now) names.old.items
        ++ number_names (field_tree field.now ∷ [])) }
{
    match field.kind {
        FieldKind::Number(_) => {
            names.push(field.name.bytes())?;
            Ok(())
        }
        FieldKind::Array(_, _) | FieldKind::Struct(_) => Ok(()),
    }
}

/// The names of the fields that are numbers.
fn number_names(alloc: Global, fields: &[Field]) -> Result<Vec<&[u8]>, AllocError>
    ensures { IfOk result (λ names. map (λ n. n.now) names.items
        ≡ number_names (field_trees fields.now)) }
{
    let mut names = Vec::new(alloc);
    for field in fields {
        push_number(&mut names, field)?;
    }
    Ok(names)
}

/// How many outputs y1, y2 and so on the root has.
fn output_count(alloc: Global, program: &Program) -> Result<u32, Memory>
    ensures { IfOk result (λ count. count
        ≡ length (output_fields (root_fields (program_tree program.now)))) }
{
    let names = number_names(alloc, root_fields(program))?;
    let outputs = output_names(alloc, names.as_slice())?;
    let count = outputs.len();
    if count <= u32::MAX as usize {
        Ok(count as u32)
    } else {
        Err(Memory)
    }
}

/// A lawful program with what its root takes and gives.
pub fn check_root(alloc: Global, program: Program) -> Result<Checked, Memory>
    requires lawful { IsLawful (program_tree program) }
    requires few { length program.procedures.items < 2 ^ 32 }
    ensures { IfOk result (λ checked. checked.program ≡ program) }
{
    let Some(k) = procedure_named(&program, b"root_step") else {
        return Err(Memory);
    };
    let Some(step) = program.procedures.get(k as usize) else {
        return Err(Memory);
    };
    let inputs = input_types(alloc, step.params.as_slice())?;
    let outputs = output_count(alloc, &program)?;
    Ok(Checked::new(program, inputs, outputs))
}

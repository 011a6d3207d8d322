// Pure functions, structs and procedures.
ghost use Rattle.std.specs.Prelude.{◌≡◌, ◌++◌, map, OnOk};
ghost use Rattle.std.specs.List.{flat_map, enumerate_from};
ghost use Rattle.c_syntax.specs.Plain.{pure_tree, procedure_tree, program_tree};
ghost use Rattle.c_syntax.specs.PlainField.{field_tree, field_trees};
ghost use Rattle.c_printer.specs.Lines.{noted_line};
ghost use Rattle.c_printer.specs.Notes.{notes_seen};
ghost use Rattle.c_printer.specs.Printing.{pure_head_bytes, pure_bytes, pure_params_bytes, kind_bytes, length_bytes, field_bytes, noted_field_bytes, noted_struct_bytes, private_bytes, param_bytes, procedure_head_bytes, noted_procedure_bytes};

use crate::notes::{Notes, note_at};
use crate::printing::body::{put_expr, put_stmts, type_text};
use crate::printing::lines::{end_line, put_margin, put_note};
use crate::printing::names::{Params, Scope, struct_fields, struct_name};
use crate::printing::put;
use base_core::Text;
use c_syntax::{CType, Field, FieldKind, Procedure, Program, Pure, StructDef};
use itoa::Buffer;
use std::alloc::{AllocError, Global};

pub(super) fn put_pure(out: &mut Vec<u8>, program: &Program, pure: &Pure) -> Result<(), AllocError>
    ensures { OnOk result (out.new.items ≡ out.old.items ++ pure_bytes (program_tree program.now)
        (pure_tree pure.now)) }
{
    put_pure_head(out, pure)?;
    put(out, b"    return ")?;
    let scope = Scope {
        program,
        fields: &[],
        params: Params::Pure(&pure.params),
        notes: &[],
    };
    put_expr(out, &scope, &pure.body)?;
    put(out, b";\n}\n")
}

fn put_pure_head(out: &mut Vec<u8>, pure: &Pure) -> Result<(), AllocError>
    ensures { OnOk result (out.new.items ≡ out.old.items ++ pure_head_bytes (pure_tree pure.now)) }
{
    put(out, b"\nstatic int64_t ")?;
    put(out, pure.name.bytes())?;
    put(out, b"(")?;
    put_pure_params(out, &pure.params)?;
    put(out, b") {\n")
}

fn put_pure_params(out: &mut Vec<u8>, params: &[Text]) -> Result<(), AllocError>
    ensures { OnOk result (out.new.items ≡ out.old.items ++ pure_params_bytes params.now) }
{
    let Some((first, later)) = params.split_first() else {
        return Ok(());
    };
    put(out, b"int64_t ")?;
    put(out, first.bytes())?;
    for name in later {
        put(out, b", int64_t ")?;
        put(out, name.bytes())?;
    }
    Ok(())
}

// The struct at a position.
pub(super) fn put_struct(
    alloc: Global,
    out: &mut Vec<u8>,
    program: &Program,
    notes: &Notes,
    k: usize,
    def: &StructDef,
) -> Result<(), AllocError>
    ensures { OnOk result (out.new.items
        ≡ out.old.items ++ noted_struct_bytes (program_tree program.now) (notes_seen notes.now)
        (k, def.now)) }
{
    put(out, b"\n")?;
    put_note(out, notes.above_struct(k))?;
    put(out, b"struct ")?;
    put(out, def.name.bytes())?;
    put(out, b" {\n")?;
    put_fields(alloc, out, program, notes.on_fields(k), &def.fields)?;
    put(out, b"};\n")
}

fn put_fields(
    alloc: Global,
    out: &mut Vec<u8>,
    program: &Program,
    notes: &[Vec<u8>],
    fields: &[Field],
) -> Result<(), AllocError>
    ensures { OnOk result (out.new.items ≡ out.old.items
        ++ flat_map
        (noted_field_bytes (program_tree program.now) (map (λ note. note.items) notes.now))
        (enumerate_from 0 (field_trees fields.now))) }
{
    for (k, field) in fields.iter().enumerate() {
        put_field(alloc, out, program, note_at(notes, k), field)?;
    }
    Ok(())
}

fn put_field(
    alloc: Global,
    out: &mut Vec<u8>,
    program: &Program,
    note: &[u8],
    field: &Field,
) -> Result<(), AllocError>
    ensures { OnOk result (out.new.items ≡ out.old.items
        ++ noted_line 4 note.now (field_bytes (program_tree program.now) (field_tree field.now))) }
{
    put_margin(out, 4)?;
    let code_at = out.len();
    put_declaration(out, program, field)?;
    end_line(alloc, out, 4, code_at, note)
}

fn put_declaration(out: &mut Vec<u8>, program: &Program, field: &Field) -> Result<(), AllocError>
    ensures { OnOk result (out.new.items
        ≡ out.old.items ++ field_bytes (program_tree program.now) (field_tree field.now)) }
{
    put_kind(out, program, field.kind)?;
    put(out, b" ")?;
    put(out, field.name.bytes())?;
    put_length(out, field.kind)?;
    put(out, b";")
}

// The length of an array, after the field's name.
fn put_length(out: &mut Vec<u8>, kind: FieldKind) -> Result<(), AllocError>
    ensures { OnOk result (out.new.items ≡ out.old.items ++ length_bytes kind) }
{
    match kind {
        FieldKind::Array(_, count) => {
            let mut digits = Buffer::new();
            put(out, b"[")?;
            put(out, digits.format(count).as_bytes())?;
            put(out, b"]")
        }
        FieldKind::Number(_) | FieldKind::Struct(_) => Ok(()),
    }
}

fn put_kind(out: &mut Vec<u8>, program: &Program, kind: FieldKind) -> Result<(), AllocError>
    ensures { OnOk result (out.new.items ≡ out.old.items ++ kind_bytes (program_tree program.now) kind) }
{
    match kind {
        FieldKind::Number(of) | FieldKind::Array(of, _) => put(out, type_text(of)),
        FieldKind::Struct(k) => {
            put(out, b"struct ")?;
            put(out, struct_name(program, k))
        }
    }
}

// The procedure at a position.
pub(super) fn put_procedure(
    alloc: Global,
    out: &mut Vec<u8>,
    program: &Program,
    notes: &Notes,
    k: usize,
    procedure: &Procedure,
) -> Result<(), AllocError>
    ensures { OnOk result (out.new.items
        ≡ out.old.items ++ noted_procedure_bytes (program_tree program.now) (notes_seen notes.now)
        (k, procedure_tree procedure.now)) }
{
    put_procedure_head(out, program, notes.above_procedure(k), procedure)?;
    let scope = Scope {
        program,
        fields: struct_fields(program, procedure.of),
        params: Params::Procedure(&procedure.params),
        notes: notes.on_fields(procedure.of as usize),
    };
    put_stmts(alloc, out, &scope, 4, &procedure.body)?;
    put(out, b"}\n")
}

fn put_procedure_head(
    out: &mut Vec<u8>,
    program: &Program,
    note: &[u8],
    procedure: &Procedure,
) -> Result<(), AllocError>
    ensures { OnOk result (out.new.items
        ≡ out.old.items ++ procedure_head_bytes (program_tree program.now) note.now
        (procedure_tree procedure.now)) }
{
    put(out, b"\n")?;
    put_note(out, note)?;
    put(out, private_text(procedure.private))?;
    put(out, procedure.name.bytes())?;
    put(out, b"(struct ")?;
    put(out, struct_name(program, procedure.of))?;
    put(out, b" *s")?;
    put_params(out, &procedure.params)?;
    put(out, b") {\n")
}

fn private_text(private: bool) -> &'static [u8]
    ensures { result.now ≡ private_bytes private }
{
    if private { b"static void " } else { b"void " }
}

fn put_params(out: &mut Vec<u8>, params: &[(Text, CType)]) -> Result<(), AllocError>
    ensures { OnOk result (out.new.items
        ≡ out.old.items
        ++ flat_map param_bytes (map (λ q. record { name = q.0; type = q.1 }) params.now)) }
{
    for (name, of) in params {
        put(out, b", ")?;
        put(out, type_text(*of))?;
        put(out, b" ")?;
        put(out, name.bytes())?;
    }
    Ok(())
}

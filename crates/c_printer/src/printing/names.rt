// The names that positions stand for. A position that stands for none has an empty name, which a lawful program never asks for.
ghost use Rattle.std.specs.Prelude.{◌≡◌, map};
ghost use Rattle.c_syntax.specs.PlainField.{field_trees};
ghost use Rattle.c_syntax.specs.Plain.{program_tree};
ghost use Rattle.c_syntax.specs.Tree.{struct_fields, kind_type, field_types, type_at};
ghost use Rattle.c_syntax.specs.Names.{name_at};
ghost use Rattle.c_printer.specs.Printing.{pure_name, struct_name, procedure_name, procedure_types, field_name, kind_fields, inner_fields};
ghost use Rattle.c_printer.specs.VocabularyOf.{vocabulary_of, param_names};

use base_core::Text;
use c_syntax::{CType, Field, FieldKind, Program};

/// The parameters of a function.
#[derive(Clone, Copy)]
pub(super) enum Params<'a> {
    Pure(&'a [Text]),
    Procedure(&'a [(Text, CType)]),
}

/// What a body can name, and the notes on the fields.
#[derive(Clone, Copy)]
pub(super) struct Scope<'a> {
    pub(super) program: &'a Program,
    pub(super) fields: &'a [Field],
    pub(super) params: Params<'a>,
    pub(super) notes: &'a [Vec<u8>],
}

const NO_NAME: &[u8] = b"";

pub(super) fn pure_name(program: &Program, k: u32) -> &[u8]
    ensures { result.now ≡ pure_name (program_tree program.now) k }
{
    match program.pure.get(k as usize) {
        Some(pure) => pure.name.bytes(),
        None => NO_NAME,
    }
}

pub(super) fn procedure_name(program: &Program, k: u32) -> &[u8]
    ensures { result.now ≡ procedure_name (program_tree program.now) k }
{
    match program.procedures.get(k as usize) {
        Some(procedure) => procedure.name.bytes(),
        None => NO_NAME,
    }
}

pub(super) fn procedure_params(program: &Program, k: u32) -> &[(Text, CType)]
    ensures { map (λ q. q.1) result.now ≡ procedure_types (program_tree program.now) k }
{
    match program.procedures.get(k as usize) {
        Some(procedure) => procedure.params.as_slice(),
        None => &[],
    }
}

pub(super) fn struct_name(program: &Program, k: u32) -> &[u8]
    ensures { result.now ≡ struct_name (program_tree program.now) k }
{
    match program.structs.get(k as usize) {
        Some(def) => def.name.bytes(),
        None => NO_NAME,
    }
}

pub(super) fn struct_fields(program: &Program, k: u32) -> &[Field]
    ensures { field_trees result.now ≡ struct_fields (program_tree program.now).structs k }
{
    match program.structs.get(k as usize) {
        Some(def) => def.fields.as_slice(),
        None => &[],
    }
}

pub(super) fn field_name(fields: &[Field], k: u32) -> &[u8]
    ensures { result.now ≡ field_name (field_trees fields.now) k }
{
    match fields.get(k as usize) {
        Some(field) => field.name.bytes(),
        None => NO_NAME,
    }
}

pub(super) fn field_type(fields: &[Field], k: u32) -> CType
    ensures { result ≡ type_at (field_types (field_trees fields.now)) k }
{
    match fields.get(k as usize) {
        Some(field) => kind_type(field.kind),
        None => CType::I64,
    }
}

fn kind_type(kind: FieldKind) -> CType
    ensures { result ≡ kind_type kind }
{
    match kind {
        FieldKind::Number(of) | FieldKind::Array(of, _) => of,
        FieldKind::Struct(_) => CType::I64,
    }
}

fn kind_fields(program: &Program, kind: FieldKind) -> &[Field]
    ensures { field_trees result.now ≡ kind_fields (program_tree program.now).structs kind }
{
    match kind {
        FieldKind::Number(_) | FieldKind::Array(_, _) => &[],
        FieldKind::Struct(k) => struct_fields(program, k),
    }
}

impl<'a> Scope<'a> {
    pub(super) fn param_name(&self, k: u32) -> &'a [u8]
        ensures { result.now ≡ name_at (vocabulary_of self.now).params k }
    {
        let name = match self.params {
            Params::Pure(params) => params.get(k as usize).map(|name| name.bytes()),
            Params::Procedure(params) => params.get(k as usize).map(|param| param.0.bytes()),
        };
        name.unwrap_or(NO_NAME)
    }

    pub(super) fn inner_fields(&self, k: u32) -> &'a [Field]
        ensures { field_trees result.now ≡ inner_fields (vocabulary_of self.now) k }
    {
        match self.fields.get(k as usize) {
            Some(field) => kind_fields(self.program, field.kind),
            None => &[],
        }
    }
}

// Structs and procedures of a program by name.
ghost use Rattle.std.specs.Prelude.{◌≡◌, ◌<◌, ◌^◌, length, bytes_eq};
ghost use Rattle.std.specs.List.{position};
ghost use Rattle.c_syntax.specs.Plain.{program_tree};
ghost use Rattle.c_syntax.specs.PlainField.{field_trees};
ghost use Rattle.c_syntax.specs.RootFields as rows;
ghost use Rattle.c_syntax.specs.Tree.{struct_fields};

use c_syntax::{Field, Procedure, Program, StructDef};

/// Where the procedure of a name is.
fn position_of_procedure(procedures: &[Procedure], name: &[u8]) -> Option<usize>
    ensures { result ≡ position (λ p. bytes_eq p.name name.now) procedures.now }
{
    procedures.iter().position(|p| p.name.bytes() == name)
}

/// Where the struct of a name is.
fn position_of_struct(structs: &[StructDef], name: &[u8]) -> Option<usize>
    ensures { result ≡ position (λ d. bytes_eq d.name name.now) structs.now }
{
    structs.iter().position(|d| d.name.bytes() == name)
}

/// The position of the procedure of a name.
pub fn procedure_named(program: &Program, name: &[u8]) -> Option<u32>
    requires { length program.now.procedures.items < 2 ^ 32 }
    ensures { result ≡ rows.procedure_named (program_tree program.now) name.now }
{
    match position_of_procedure(program.procedures.as_slice(), name) {
        Some(k) => Some(k as u32),
        None => None,
    }
}

/// The position of the root's struct, and 0 where there is none.
fn root_struct(program: &Program) -> usize
    ensures { result ≡ rows.root_struct (program_tree program.now) }
{
    match position_of_struct(program.structs.as_slice(), b"root") {
        Some(k) => k,
        None => 0,
    }
}

/// The fields of the struct at a position, and none past the end.
fn fields_at(structs: &[StructDef], k: usize) -> &[Field]
    ensures { field_trees result.now ≡ struct_fields structs.now k }
{
    match structs.get(k) {
        Some(def) => def.fields.as_slice(),
        None => &[],
    }
}

/// The fields of the root's struct.
pub fn root_fields(program: &Program) -> &[Field]
    ensures { field_trees result.now ≡ rows.root_fields (program_tree program.now) }
{
    fields_at(program.structs.as_slice(), root_struct(program))
}

ghost use Rattle.std.specs.Prelude.{◌≡◌, [], ◌∷◌, codes, map, IfOk};
ghost use Rattle.c_syntax.specs.Plain.{procedure_tree, program_tree};
ghost use Rattle.c_syntax.specs.Lawful.{IsLawful};
ghost use Rattle.emit_prelude.specs.Rules.{IsPrelude};
ghost use Rattle.tool_prelude_text.specs.Root.{root_struct, root_procedure};

use base_core::{Memory, Text};
use c_syntax::{CType, Expr, Field, FieldKind, Procedure, Program, Stmt, StructDef};
use emit_prelude::prelude;
use std::alloc::Global;

/// A list of one item.
fn one<T: Drop>(alloc: Global, item: T) -> Result<Vec<T>, Memory>
    ensures { IfOk result (λ v. v.items ≡ item ∷ []) }
{
    let mut list = Vec::new(alloc);
    match list.push(item) {
        Ok(()) => Ok(list),
        Err(_) => Err(Memory),
    }
}

/// `struct root { int32_t now; };`
fn root(alloc: Global) -> Result<StructDef, Memory>
    ensures { IfOk result (λ d. d ≡ root_struct) }
{
    let now = Field {
        name: Text::copy_of(alloc, b"now")?,
        kind: FieldKind::Number(CType::I32),
    };
    Ok(StructDef {
        name: Text::copy_of(alloc, b"root")?,
        fields: one(alloc, now)?,
    })
}

/// A procedure of the root without parameters, which stores 0 in `now`.
fn procedure(alloc: Global, name: &[u8]) -> Result<Procedure, Memory>
    ensures { IfOk result (λ p. procedure_tree p ≡ root_procedure name.now) }
{
    let store = Stmt::Set {
        line: 0,
        field: 0,
        value: Expr::Literal(0),
    };
    Ok(Procedure {
        name: Text::copy_of(alloc, name)?,
        private: false,
        of: 0,
        params: Vec::new(alloc),
        body: one(alloc, store)?,
    })
}

/// `root_start` and `root_step`.
fn procedures(alloc: Global) -> Result<Vec<Procedure>, Memory>
    ensures { IfOk result
        (λ ps. map procedure_tree ps.items
        ≡ root_procedure (codes "root_start") ∷ root_procedure (codes "root_step") ∷ []) }
{
    let mut list = one(alloc, procedure(alloc, b"root_start")?)?;
    match list.push(procedure(alloc, b"root_step")?) {
        Ok(()) => Ok(list),
        Err(_) => Err(Memory),
    }
}

/// The least program with the eight pure functions: no procedure calls them, and the root has one field.
pub(crate) fn program(alloc: Global) -> Result<Program, Memory>
    ensures functions { IfOk result (λ p. IsPrelude (program_tree p).pures) }
    ensures lawful { IfOk result (λ p. IsLawful (program_tree p)) }
{
    Ok(Program {
        pure: prelude(alloc)?,
        structs: one(alloc, root(alloc)?)?,
        procedures: procedures(alloc)?,
    })
}

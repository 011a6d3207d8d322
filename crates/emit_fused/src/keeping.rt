// Which statements leave some fields as they are.
ghost use Rattle.std.specs.Prelude.{◌≡◌, ◌==◌, map};
ghost use Rattle.std.specs.List.{list_any};
ghost use Rattle.c_syntax.specs.Tree.{stmts_of_list};
ghost use Rattle.c_syntax.specs.Plain.{stmt_tree};
ghost use Rattle.emit_fused.specs.Kept as kept;

use c_syntax::{Stmt, Target};

/// Whether a field is one of these.
fn has(fields: &[u32], field: u32) -> bool
    ensures { result ≡ list_any (λ g. g == field) fields.now }
{
    fields.iter().any(|other| *other == field)
}

/// Whether a field is none of these.
fn is_apart(fields: &[u32], field: u32) -> bool
    ensures { result ≡ kept.is_apart fields.now field }
{
    !has(fields, field)
}

/// Whether a call on a target leaves these fields.
fn target_keeps(fields: &[u32], target: Target) -> bool
    ensures { result ≡ kept.target_keeps fields.now target }
{
    match target {
        Target::Own => fields.is_empty(),
        Target::Child(field) => is_apart(fields, field),
    }
}

/// Whether a statement leaves these fields.
#[cycle(statement)]
fn stmt_keeps(fields: &[u32], s: &Stmt) -> bool
    ensures { result ≡ kept.stmt_keeps fields.now (stmt_tree s.now) }
{
    match s {
        Stmt::Set { field, .. } => is_apart(fields, *field),
        Stmt::SetAt { field, .. } => is_apart(fields, *field),
        Stmt::If { yes, no, .. } => stmts_keep(fields, yes) && stmts_keep(fields, no),
        Stmt::Call { target, .. } => target_keeps(fields, *target),
    }
}

/// Whether statements leave these fields.
#[cycle(statement)]
pub(crate) fn stmts_keep(fields: &[u32], ss: &[Stmt]) -> bool
    ensures { result ≡ kept.stmts_keep fields.now (stmts_of_list (map stmt_tree ss.now)) }
{
    for s in ss {
        if !stmt_keeps(fields, s) {
            return false;
        }
    }
    true
}

// Statements without an `if` among them, which are only simplified.
ghost use Rattle.std.specs.Prelude.{◌≡◌, IfOk, map};
ghost use Rattle.std.specs.List.{list_any};
ghost use Rattle.c_syntax.specs.Plain.{stmt_tree};
ghost use Rattle.emit_fused.specs.Turned as turned;

use crate::fusing::simplified_set_at;
use crate::simplifying::{simplified_expr, simplified_exprs};
use base_core::Memory;
use c_syntax::Stmt;
use std::alloc::Global;

/// Whether a statement is an `if`.
fn is_choice(s: &Stmt) -> bool
    ensures { result ≡ turned.is_choice (stmt_tree s.now) }
{
    match s {
        Stmt::If { .. } => true,
        Stmt::Set { .. } => false,
        Stmt::SetAt { .. } => false,
        Stmt::Call { .. } => false,
    }
}

/// Whether one of these statements is an `if`.
pub(crate) fn has_choice(ss: &[Stmt]) -> bool
    ensures { result ≡ list_any (λ s. turned.is_choice (stmt_tree s)) ss.now }
{
    ss.iter().any(|s| is_choice(s))
}

/// A simplified statement; an `if` as it is.
fn simplified_stmt(alloc: Global, s: Stmt) -> Result<Stmt, Memory>
    ensures { IfOk result (λ x. stmt_tree x ≡ turned.simplified_stmt (stmt_tree s)) }
{
    match s {
        Stmt::Set { line, field, value } => {
            let value = simplified_expr(alloc, &value)?;
            Ok(Stmt::Set { line, field, value })
        }
        Stmt::SetAt {
            line,
            field,
            index,
            value,
        } => simplified_set_at(alloc, line, field, &index, &value),
        Stmt::If {
            line,
            test,
            yes,
            no,
        } => Ok(Stmt::If {
            line,
            test,
            yes,
            no,
        }),
        Stmt::Call {
            line,
            procedure,
            target,
            values,
        } => {
            let values = simplified_exprs(alloc, values.as_slice())?;
            Ok(Stmt::Call {
                line,
                procedure,
                target,
                values,
            })
        }
    }
}

/// Simplified statements; each `if` as it is.
pub(crate) fn simplified_stmts(alloc: Global, ss: Vec<Stmt>) -> Result<Vec<Stmt>, Memory>
    ensures { IfOk result (λ v. map stmt_tree v.items
        ≡ map turned.simplified_stmt (map stmt_tree ss.items)) }
{
    let mut list = Vec::with_capacity(alloc, ss.len())?;
    let mut rest = ss.into_iter();
    while let Some(s) = rest.next() {
        list.push(simplified_stmt(alloc, s)?)?;
    }
    Ok(list)
}

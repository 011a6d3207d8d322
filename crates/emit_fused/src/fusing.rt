// Statements that are simplified and fused, in lists that are turned round: the last statement first.
ghost use Rattle.std.specs.Prelude.{◌≡◌, IfOk, map};
ghost use Rattle.c_syntax.specs.Tree as tree;
ghost use Rattle.c_syntax.specs.Plain.{cond_tree, expr_tree, stmt_tree};
ghost use Rattle.emit_fused.specs.Fused as fused;
ghost use Rattle.emit_fused.specs.Turned.{standing, turned, turned_stmt};

use crate::choice::Choice;
use crate::choosing::{statement, where_fails};
use crate::joining::push_before;
use crate::simplifying::{simplified_expr, simplified_exprs};
use base_core::Memory;
use c_renaming::copied_cond;
use c_syntax::{Cond, Expr, Stmt};
use std::alloc::Global;

/// A store in an item of an array, simplified.
pub(crate) fn simplified_set_at(
    alloc: Global,
    line: u32,
    field: u32,
    index: &Expr,
    value: &Expr,
) -> Result<Stmt, Memory>
    ensures { IfOk result (λ x. stmt_tree x
        ≡ fused.fused_stmt (tree.assign_at line field (expr_tree index.now) (expr_tree value.now))) }
{
    let index = simplified_expr(alloc, index)?;
    let value = simplified_expr(alloc, value)?;
    Ok(Stmt::SetAt {
        line,
        field,
        index,
        value,
    })
}

/// An `if` with fused branches.
fn fused_choice(line: u32, test: Cond, yes: Vec<Stmt>, no: Vec<Stmt>) -> Stmt
    ensures { turned_stmt (stmt_tree result) ≡ tree.branch line (cond_tree test) (turned yes.items)
        (fused.where_fails (cond_tree test) (turned no.items)) }
{
    let no = where_fails(&test, no);
    statement(Choice {
        line,
        test,
        yes,
        no,
    })
}

/// A fused statement.
#[cycle(statement)]
fn fused_stmt(alloc: Global, s: &Stmt) -> Result<Stmt, Memory>
    ensures { IfOk result (λ x. turned_stmt (stmt_tree x) ≡ fused.fused_stmt (stmt_tree s.now)) }
{
    match s {
        Stmt::Set { line, field, value } => {
            let value = simplified_expr(alloc, value)?;
            Ok(Stmt::Set {
                line: *line,
                field: *field,
                value,
            })
        }
        Stmt::SetAt {
            line,
            field,
            index,
            value,
        } => simplified_set_at(alloc, *line, *field, index, value),
        Stmt::If {
            line,
            test,
            yes,
            no,
        } => {
            let test = copied_cond(alloc, test)?;
            let on_true = fused_stmts(alloc, yes)?;
            let on_false = fused_stmts(alloc, no)?;
            Ok(fused_choice(*line, test, on_true, on_false))
        }
        Stmt::Call {
            line,
            procedure,
            target,
            values,
        } => {
            let values = simplified_exprs(alloc, values.as_slice())?;
            Ok(Stmt::Call {
                line: *line,
                procedure: *procedure,
                target: *target,
                values,
            })
        }
    }
}

/// Fused statements.
#[cycle(statement)]
pub(crate) fn fused_stmts(alloc: Global, ss: &[Stmt]) -> Result<Vec<Stmt>, Memory>
    ensures { IfOk result (λ v. turned v.items ≡ fused.fused_stmts (standing ss.now)) }
{
    let mut list = Vec::new(alloc);
    for position in (0..ss.len()).rev() {
        let s = fused_stmt(alloc, &ss[position])?;
        push_before(alloc, &mut list, s)?;
    }
    Ok(list)
}

// Statements with their calls and leaves moved.
ghost use Rattle.std.specs.Prelude.{◌≡◌, IfOk, map};
ghost use Rattle.c_syntax.specs.Tree as tree;
ghost use Rattle.c_syntax.specs.Tree.{stmts_of_list};
ghost use Rattle.c_syntax.specs.Plain.{cond_tree, stmt_tree};
ghost use Rattle.emit_shape.specs.Relocation as moved;
ghost use Rattle.emit_linker.specs.Linked.{relocation};

use crate::exprs::{boxed_moved_expr, moved_cond, moved_expr, moved_exprs};
use crate::links::Links;
use crate::lists::{number_at, sum};
use base_core::Memory;
use c_syntax::{Cond, Stmt};
use std::alloc::Global;

/// The position of a procedure that a code names by its number.
fn moved_number(links: &Links<'_>, k: u32) -> Result<u32, Memory>
    ensures { IfOk result (λ n. n ≡ moved.moved_number (relocation links.now) k) }
{
    if k < links.own {
        sum(links.first, k)
    } else {
        Ok(number_at(&links.offered, k - links.own))
    }
}

/// A choice.
fn choice(line: u32, test: Cond, yes: Vec<Stmt>, no: Vec<Stmt>) -> Stmt
    ensures { stmt_tree result
        ≡ tree.branch line (cond_tree test) (stmts_of_list (map stmt_tree yes.items))
        (stmts_of_list (map stmt_tree no.items)) }
{
    Stmt::If {
        line,
        test,
        yes,
        no,
    }
}

/// A statement with its calls and leaves moved.
#[cycle(statement)]
fn moved_stmt(alloc: Global, links: &Links<'_>, s: &Stmt) -> Result<Stmt, Memory>
    ensures { IfOk result (λ x. stmt_tree x ≡ moved.moved_stmt (relocation links.now) (stmt_tree s.now)) }
{
    match s {
        Stmt::Set { line, field, value } => {
            let value = moved_expr(alloc, links, value)?;
            Ok(Stmt::Set {
                line: *line,
                field: *field,
                value,
            })
        }
        Stmt::SetAt {
            line,
            field,
            index,
            value,
        } => {
            let index = boxed_moved_expr(alloc, links, index)?;
            let value = moved_expr(alloc, links, value)?;
            Ok(Stmt::SetAt {
                line: *line,
                field: *field,
                index: Box::into_inner(index),
                value,
            })
        }
        Stmt::If {
            line,
            test,
            yes,
            no,
        } => {
            let on_true = moved_stmts(alloc, links, yes)?;
            let on_false = moved_stmts(alloc, links, no)?;
            let test = moved_cond(alloc, links, test)?;
            Ok(choice(*line, test, on_true, on_false))
        }
        Stmt::Call {
            line,
            procedure,
            target,
            values,
        } => {
            let procedure = moved_number(links, *procedure)?;
            let values = moved_exprs(alloc, links, values.as_slice())?;
            Ok(Stmt::Call {
                line: *line,
                procedure,
                target: *target,
                values,
            })
        }
    }
}

/// Statements with their calls and leaves moved.
#[cycle(statement)]
pub(crate) fn moved_stmts(
    alloc: Global,
    links: &Links<'_>,
    ss: &[Stmt],
) -> Result<Vec<Stmt>, Memory>
    ensures { IfOk result (λ v. stmts_of_list (map stmt_tree v.items)
        ≡ moved.moved_stmts (relocation links.now) (stmts_of_list (map stmt_tree ss.now))) }
{
    let mut list = Vec::new(alloc);
    for s in ss {
        list.push(moved_stmt(alloc, links, s)?)?;
    }
    Ok(list)
}

// Copies of expressions, tests and statements.
ghost use Rattle.std.specs.Prelude.{◌≡◌, IfOk, map};
ghost use Rattle.c_syntax.specs.Tree as tree;
ghost use Rattle.c_syntax.specs.Plain.{cond_tree, expr_tree, stmt_tree};

use crate::nodes::{call_of_pure, choice};
use base_core::Memory;
use c_syntax::{Cond, Expr, Stmt};
use std::alloc::Global;

/// A copy of an expression.
#[cycle(copy)]
pub fn copied_expr(alloc: Global, e: &Expr) -> Result<Expr, Memory>
    ensures { IfOk result (λ x. expr_tree x ≡ expr_tree e.now) }
{
    match e {
        Expr::Literal(value) => Ok(Expr::Literal(*value)),
        Expr::Neg(operand) => {
            let operand = boxed_copied_expr(alloc, operand)?;
            Ok(Expr::Neg(operand))
        }
        Expr::Read(leaf) => Ok(Expr::Read(*leaf)),
        Expr::Binary(op, left, right) => {
            let left = boxed_copied_expr(alloc, left)?;
            let right = boxed_copied_expr(alloc, right)?;
            Ok(Expr::Binary(*op, left, right))
        }
        Expr::Pick(test, on_true, on_false) => {
            let test = boxed_copied_cond(alloc, test)?;
            let on_true = boxed_copied_expr(alloc, on_true)?;
            let on_false = boxed_copied_expr(alloc, on_false)?;
            Ok(Expr::Pick(test, on_true, on_false))
        }
        Expr::Pure(function, values) => {
            let values = copied_exprs(alloc, values.as_slice())?;
            Ok(call_of_pure(*function, values))
        }
        Expr::At(field, index) => {
            let index = boxed_copied_expr(alloc, index)?;
            Ok(Expr::At(*field, index))
        }
    }
}

/// A copy of an expression, in a box.
#[cycle(copy)]
fn boxed_copied_expr(alloc: Global, e: &Expr) -> Result<Box<Expr>, Memory>
    ensures { IfOk result (λ x. expr_tree x.value ≡ expr_tree e.now) }
{
    let e = copied_expr(alloc, e)?;
    Ok(Box::new(alloc, e)?)
}

/// Copies of expressions.
#[cycle(copy)]
fn copied_exprs(alloc: Global, es: &[Expr]) -> Result<Vec<Expr>, Memory>
    ensures { IfOk result (λ v. map expr_tree v.items ≡ map expr_tree es.now) }
{
    let mut list = Vec::new(alloc);
    for e in es {
        list.push(copied_expr(alloc, e)?)?;
    }
    Ok(list)
}

/// A copy of a condition.
#[cycle(copy)]
pub fn copied_cond(alloc: Global, test: &Cond) -> Result<Cond, Memory>
    ensures { IfOk result (λ c. cond_tree c ≡ cond_tree test.now) }
{
    match test {
        Cond::Compare(how, left, right) => {
            let left = copied_expr(alloc, left)?;
            let right = copied_expr(alloc, right)?;
            Ok(Cond::Compare(*how, left, right))
        }
        Cond::Both(left, right) => {
            let left = boxed_copied_cond(alloc, left)?;
            let right = boxed_copied_cond(alloc, right)?;
            Ok(Cond::Both(left, right))
        }
        Cond::Either(left, right) => {
            let left = boxed_copied_cond(alloc, left)?;
            let right = boxed_copied_cond(alloc, right)?;
            Ok(Cond::Either(left, right))
        }
        Cond::Not(operand) => {
            let operand = boxed_copied_cond(alloc, operand)?;
            Ok(Cond::Not(operand))
        }
    }
}

/// A copy of a condition, in a box.
#[cycle(copy)]
fn boxed_copied_cond(alloc: Global, test: &Cond) -> Result<Box<Cond>, Memory>
    ensures { IfOk result (λ c. cond_tree c.value ≡ cond_tree test.now) }
{
    let test = copied_cond(alloc, test)?;
    Ok(Box::new(alloc, test)?)
}

/// A copy of a store in an item of an array.
fn copied_set_at(
    alloc: Global,
    line: u32,
    field: u32,
    index: &Expr,
    value: &Expr,
) -> Result<Stmt, Memory>
    ensures { IfOk result (λ x. stmt_tree x
        ≡ tree.assign_at line field (expr_tree index.now) (expr_tree value.now)) }
{
    let index = copied_expr(alloc, index)?;
    let value = copied_expr(alloc, value)?;
    Ok(Stmt::SetAt {
        line,
        field,
        index,
        value,
    })
}

/// A copy of a statement.
#[cycle(statement)]
pub fn copied_stmt(alloc: Global, s: &Stmt) -> Result<Stmt, Memory>
    ensures { IfOk result (λ x. stmt_tree x ≡ stmt_tree s.now) }
{
    match s {
        Stmt::Set { line, field, value } => {
            let value = copied_expr(alloc, value)?;
            Ok(Stmt::Set {
                line: *line,
                field: *field,
                value,
            })
        }
        Stmt::SetAt {
            line,
            field,
            index,
            value,
        } => copied_set_at(alloc, *line, *field, index, value),
        Stmt::If {
            line,
            test,
            yes,
            no,
        } => {
            let test = copied_cond(alloc, test)?;
            let on_true = copied_stmts(alloc, yes)?;
            let on_false = copied_stmts(alloc, no)?;
            Ok(choice(*line, test, on_true, on_false))
        }
        Stmt::Call {
            line,
            procedure,
            target,
            values,
        } => {
            let values = copied_exprs(alloc, values.as_slice())?;
            Ok(Stmt::Call {
                line: *line,
                procedure: *procedure,
                target: *target,
                values,
            })
        }
    }
}

/// Copies of statements.
#[cycle(statement)]
pub fn copied_stmts(alloc: Global, ss: &[Stmt]) -> Result<Vec<Stmt>, Memory>
    ensures { IfOk result (λ v. map stmt_tree v.items ≡ map stmt_tree ss.now) }
{
    let mut list = Vec::new(alloc);
    for s in ss {
        list.push(copied_stmt(alloc, s)?)?;
    }
    Ok(list)
}

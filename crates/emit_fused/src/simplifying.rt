// Expressions in which no factor and no divisor is 1.
ghost use Rattle.std.specs.Prelude.{◌≡◌, IfOk, map};
ghost use Rattle.c_syntax.specs.Tree as tree;
ghost use Rattle.c_syntax.specs.Tree.{exprs_of_list};
ghost use Rattle.c_syntax.specs.Plain.{cond_tree, expr_tree};
ghost use Rattle.emit_fused.specs.Simplified as simplified;

use base_core::Memory;
use c_renaming::call_of_pure;
use c_syntax::{BinOp, Cond, Expr};
use std::alloc::Global;

/// Whether an expression is the number 1.
fn is_one(e: &Expr) -> bool
    ensures { result ≡ simplified.is_one (expr_tree e.now) }
{
    match e {
        Expr::Literal(value) => *value == 1,
        _ => false,
    }
}

/// An operator on two expressions.
fn operation(alloc: Global, op: BinOp, left: Expr, right: Expr) -> Result<Expr, Memory>
    ensures { IfOk result
        (λ e. expr_tree e ≡ tree.binary op (expr_tree left) (expr_tree right)) }
{
    let left = Box::new(alloc, left)?;
    let right = Box::new(alloc, right)?;
    Ok(Expr::Binary(op, left, right))
}

/// A product, of which a factor 1 is left out.
fn product(alloc: Global, left: Expr, right: Expr) -> Result<Expr, Memory>
    ensures { IfOk result (λ e. expr_tree e
        ≡ simplified.simplified_binary BinOp.Mul (expr_tree left) (expr_tree right)) }
{
    if is_one(&right) {
        return Ok(left);
    }
    operation(alloc, BinOp::Mul, left, right)
}

/// A remainder, which by 1 is 0.
fn remainder(alloc: Global, left: Expr, right: Expr) -> Result<Expr, Memory>
    ensures { IfOk result (λ e. expr_tree e
        ≡ simplified.simplified_binary BinOp.Rem (expr_tree left) (expr_tree right)) }
{
    if is_one(&right) {
        return Ok(Expr::Literal(0));
    }
    operation(alloc, BinOp::Rem, left, right)
}

/// An operator on two simplified expressions.
fn binary(alloc: Global, op: BinOp, left: Expr, right: Expr) -> Result<Expr, Memory>
    ensures { IfOk result (λ e. expr_tree e
        ≡ simplified.simplified_binary op (expr_tree left) (expr_tree right)) }
{
    match op {
        BinOp::Mul => product(alloc, left, right),
        BinOp::Rem => remainder(alloc, left, right),
        BinOp::Add => operation(alloc, BinOp::Add, left, right),
        BinOp::Sub => operation(alloc, BinOp::Sub, left, right),
        BinOp::Div => operation(alloc, BinOp::Div, left, right),
    }
}

/// A simplified expression.
#[cycle(expression)]
pub(crate) fn simplified_expr(alloc: Global, e: &Expr) -> Result<Expr, Memory>
    ensures { IfOk result (λ x. expr_tree x ≡ simplified.simplified_expr (expr_tree e.now)) }
{
    match e {
        Expr::Literal(value) => Ok(Expr::Literal(*value)),
        Expr::Neg(operand) => {
            let operand = boxed_simplified_expr(alloc, operand)?;
            Ok(Expr::Neg(operand))
        }
        Expr::Read(leaf) => Ok(Expr::Read(*leaf)),
        Expr::Binary(op, left, right) => {
            let left = simplified_expr(alloc, left)?;
            let right = simplified_expr(alloc, right)?;
            binary(alloc, *op, left, right)
        }
        Expr::Pick(test, on_true, on_false) => {
            let test = boxed_simplified_cond(alloc, test)?;
            let on_true = boxed_simplified_expr(alloc, on_true)?;
            let on_false = boxed_simplified_expr(alloc, on_false)?;
            Ok(Expr::Pick(test, on_true, on_false))
        }
        Expr::Pure(function, values) => {
            let values = simplified_exprs(alloc, values.as_slice())?;
            Ok(call_of_pure(*function, values))
        }
        Expr::At(field, index) => {
            let index = boxed_simplified_expr(alloc, index)?;
            Ok(Expr::At(*field, index))
        }
    }
}

/// A simplified expression, in a box.
#[cycle(expression)]
fn boxed_simplified_expr(alloc: Global, e: &Expr) -> Result<Box<Expr>, Memory>
    ensures { IfOk result (λ x. expr_tree x.value ≡ simplified.simplified_expr (expr_tree e.now)) }
{
    let e = simplified_expr(alloc, e)?;
    Ok(Box::new(alloc, e)?)
}

/// Simplified expressions.
#[cycle(expression)]
pub(crate) fn simplified_exprs(alloc: Global, es: &[Expr]) -> Result<Vec<Expr>, Memory>
    ensures { IfOk result (λ v. exprs_of_list (map expr_tree v.items)
        ≡ simplified.simplified_exprs (exprs_of_list (map expr_tree es.now))) }
{
    let mut list = Vec::new(alloc);
    for e in es {
        list.push(simplified_expr(alloc, e)?)?;
    }
    Ok(list)
}

/// A simplified condition.
#[cycle(expression)]
fn simplified_cond(alloc: Global, test: &Cond) -> Result<Cond, Memory>
    ensures { IfOk result (λ c. cond_tree c ≡ simplified.simplified_cond (cond_tree test.now)) }
{
    match test {
        Cond::Compare(how, left, right) => {
            let left = simplified_expr(alloc, left)?;
            let right = simplified_expr(alloc, right)?;
            Ok(Cond::Compare(*how, left, right))
        }
        Cond::Both(left, right) => {
            let left = boxed_simplified_cond(alloc, left)?;
            let right = boxed_simplified_cond(alloc, right)?;
            Ok(Cond::Both(left, right))
        }
        Cond::Either(left, right) => {
            let left = boxed_simplified_cond(alloc, left)?;
            let right = boxed_simplified_cond(alloc, right)?;
            Ok(Cond::Either(left, right))
        }
        Cond::Not(operand) => {
            let operand = boxed_simplified_cond(alloc, operand)?;
            Ok(Cond::Not(operand))
        }
    }
}

/// A simplified condition, in a box.
#[cycle(expression)]
fn boxed_simplified_cond(alloc: Global, test: &Cond) -> Result<Box<Cond>, Memory>
    ensures { IfOk result
        (λ c. cond_tree c.value ≡ simplified.simplified_cond (cond_tree test.now)) }
{
    let test = simplified_cond(alloc, test)?;
    Ok(Box::new(alloc, test)?)
}

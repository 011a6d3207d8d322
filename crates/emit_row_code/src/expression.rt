ghost use Rattle.std.specs.Prelude.{◌≡◌, ◌≤◌, ◌<◌, ◌^◌, IfOk, map, unsigned_abs};
ghost use Rattle.c_syntax.specs.Plain.{expr_tree, cond_tree};
ghost use Rattle.c_syntax.specs.Tree as tree;
ghost use Rattle.emit_row_code.specs.RowCode as code;

use base_core::{Compare, Memory};
use c_syntax::{BinOp, Cond, Expr};
use std::alloc::Global;

/// An operator over two expressions.
pub(crate) fn binary(alloc: Global, op: BinOp, left: Expr, right: Expr) -> Result<Expr, Memory>
    ensures { IfOk result (λ e. expr_tree e ≡ tree.binary op (expr_tree left) (expr_tree right)) }
{
    Ok(Expr::Binary(op, Box::new(alloc, left)?, Box::new(alloc, right)?))
}

/// The negative of an expression.
pub(crate) fn negative(alloc: Global, operand: Expr) -> Result<Expr, Memory>
    ensures { IfOk result (λ e. expr_tree e ≡ tree.neg (expr_tree operand)) }
{
    Ok(Expr::Neg(Box::new(alloc, operand)?))
}

/// One of two expressions, by a condition.
pub(crate) fn choice(
    alloc: Global,
    test: Cond,
    on_true: Expr,
    on_false: Expr,
) -> Result<Expr, Memory>
    ensures { IfOk result
        (λ e. expr_tree e ≡ tree.pick (cond_tree test) (expr_tree on_true) (expr_tree on_false)) }
{
    Ok(Expr::Pick(
        Box::new(alloc, test)?,
        Box::new(alloc, on_true)?,
        Box::new(alloc, on_false)?,
    ))
}

/// Two conditions that both hold.
pub(crate) fn both(alloc: Global, left: Cond, right: Cond) -> Result<Cond, Memory>
    ensures { IfOk result (λ c. cond_tree c ≡ tree.both (cond_tree left) (cond_tree right)) }
{
    Ok(Cond::Both(Box::new(alloc, left)?, Box::new(alloc, right)?))
}

/// Two conditions of which one holds at least.
pub(crate) fn either(alloc: Global, left: Cond, right: Cond) -> Result<Cond, Memory>
    ensures { IfOk result (λ c. cond_tree c ≡ tree.either (cond_tree left) (cond_tree right)) }
{
    Ok(Cond::Either(Box::new(alloc, left)?, Box::new(alloc, right)?))
}

/// A condition that doesn't hold.
pub(crate) fn negated(alloc: Global, operand: Cond) -> Result<Cond, Memory>
    ensures { IfOk result (λ c. cond_tree c ≡ tree.negated (cond_tree operand)) }
{
    Ok(Cond::Not(Box::new(alloc, operand)?))
}

/// A call of the pure function at a position.
pub(crate) fn call(function: u32, values: Vec<Expr>) -> Expr
    ensures { expr_tree result
        ≡ tree.pure function (tree.exprs_of_list (map expr_tree values.items)) }
{
    Expr::Pure(function, values)
}

/// A number as C writes it: a literal has no sign.
///
/// Fails only when memory runs out.
pub fn written(alloc: Global, v: i64) -> Result<Expr, Memory>
    requires { unsigned_abs v < 2 ^ 63 }
    ensures { IfOk result (λ e. expr_tree e ≡ code.written v) }
{
    if v < 0 {
        negative(alloc, Expr::Literal(-v))
    } else {
        Ok(Expr::Literal(v))
    }
}

/// 2 to the power of `exponent`.
pub(crate) fn power(exponent: u32) -> Expr
    requires { exponent ≤ 62 }
    ensures { expr_tree result ≡ code.power exponent }
{
    Expr::Literal(1 << exponent)
}

/// 1 where a condition holds, else 0.
pub(crate) fn truth(alloc: Global, test: Cond) -> Result<Expr, Memory>
    ensures { IfOk result (λ e. expr_tree e ≡ code.truth (cond_tree test)) }
{
    choice(alloc, test, Expr::Literal(1), Expr::Literal(0))
}

/// An expression isn't 0.
pub(crate) fn is_true(e: Expr) -> Cond
    ensures { cond_tree result ≡ code.is_true_code (expr_tree e) }
{
    Cond::Compare(Compare::Ne, e, Expr::Literal(0))
}

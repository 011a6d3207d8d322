// Expressions and conditions in boxes, of their parts.
ghost use Rattle.std.specs.Prelude.{◌≡◌, IfOk};
ghost use Rattle.c_syntax.specs.Plain.{expr_tree, cond_tree};
ghost use Rattle.c_syntax.specs.Tree as tree;
ghost use Rattle.c_syntax.specs.declared.Leaf.TheVariants.{Param};

use base_core::{Compare, Memory};
use c_syntax::{BinOp, Cond, Expr, Leaf};
use std::alloc::Global;

fn boxed_expr(alloc: Global, e: Expr) -> Result<Box<Expr>, Memory>
    ensures { IfOk result (λ b. b.value ≡ e) }
{
    Ok(Box::new(alloc, e)?)
}

fn boxed_cond(alloc: Global, test: Cond) -> Result<Box<Cond>, Memory>
    ensures { IfOk result (λ b. b.value ≡ test) }
{
    Ok(Box::new(alloc, test)?)
}

/// Parameter k.
pub(crate) fn param(alloc: Global, k: u32) -> Result<Box<Expr>, Memory>
    ensures { IfOk result (λ e. expr_tree e.value ≡ tree.read (Param k)) }
{
    boxed_expr(alloc, Expr::Read(Leaf::Param(k)))
}

/// A number.
pub(crate) fn literal(alloc: Global, number: i64) -> Result<Box<Expr>, Memory>
    ensures { IfOk result (λ e. expr_tree e.value ≡ tree.literal number) }
{
    boxed_expr(alloc, Expr::Literal(number))
}

/// An operator over two expressions.
pub(crate) fn binary(
    alloc: Global,
    op: BinOp,
    left: Box<Expr>,
    right: Box<Expr>,
) -> Result<Box<Expr>, Memory>
    ensures { IfOk result (λ e. expr_tree e.value
        ≡ tree.binary op (expr_tree left.value) (expr_tree right.value)) }
{
    boxed_expr(alloc, Expr::Binary(op, left, right))
}

/// The negative of an expression.
pub(crate) fn negative(alloc: Global, operand: Box<Expr>) -> Result<Box<Expr>, Memory>
    ensures { IfOk result (λ e. expr_tree e.value ≡ tree.neg (expr_tree operand.value)) }
{
    boxed_expr(alloc, Expr::Neg(operand))
}

/// One of two expressions, by a condition.
pub(crate) fn pick(
    alloc: Global,
    test: Box<Cond>,
    on_true: Box<Expr>,
    on_false: Box<Expr>,
) -> Result<Box<Expr>, Memory>
    ensures { IfOk result (λ e. expr_tree e.value
        ≡ tree.pick (cond_tree test.value) (expr_tree on_true.value)
        (expr_tree on_false.value)) }
{
    boxed_expr(alloc, Expr::Pick(test, on_true, on_false))
}

/// Two expressions that are compared.
pub(crate) fn compare(
    alloc: Global,
    how: Compare,
    left: Box<Expr>,
    right: Box<Expr>,
) -> Result<Box<Cond>, Memory>
    ensures { IfOk result (λ c. cond_tree c.value
        ≡ tree.compare how (expr_tree left.value) (expr_tree right.value)) }
{
    let test = Cond::Compare(how, Box::into_inner(left), Box::into_inner(right));
    boxed_cond(alloc, test)
}

/// Two conditions that both hold.
pub(crate) fn both(alloc: Global, left: Box<Cond>, right: Box<Cond>) -> Result<Box<Cond>, Memory>
    ensures { IfOk result (λ c. cond_tree c.value
        ≡ tree.both (cond_tree left.value) (cond_tree right.value)) }
{
    boxed_cond(alloc, Cond::Both(left, right))
}

/// Two conditions of which one holds at least.
pub(crate) fn either(alloc: Global, left: Box<Cond>, right: Box<Cond>) -> Result<Box<Cond>, Memory>
    ensures { IfOk result (λ c. cond_tree c.value
        ≡ tree.either (cond_tree left.value) (cond_tree right.value)) }
{
    boxed_cond(alloc, Cond::Either(left, right))
}

// Expressions and equations of Lustre from their parts.
ghost use Rattle.std.specs.Prelude.{◌≡◌, ℕ, List, IfOk};
ghost use Rattle.std.specs.Option.{option_map};
ghost use Rattle.lustre_syntax.specs.Named.{renamed};
ghost use Rattle.lustre_syntax.specs.Plain.{expr_tree, equation_tree};
ghost use Rattle.lustre_syntax.specs.Tree as tree;
ghost use Rattle.lustre_system.specs.RowEquations as rows;
ghost use Rattle.lustre_row_equations.specs.Also.{also_tree};

use base_core::Memory;
use lustre_syntax::{LusEq, LusExpr, LusOp};
use std::alloc::Global;

/// An operator on two values.
pub fn two(alloc: Global, op: LusOp, left: LusExpr, right: LusExpr) -> Result<LusExpr, Memory>
    ensures { IfOk result (λ e. expr_tree e ≡ tree.two op (expr_tree left) (expr_tree right)) }
{
    Ok(LusExpr::Two(op, Box::new(alloc, left)?, Box::new(alloc, right)?))
}

/// One of two values, by a test.
pub fn choice(
    alloc: Global,
    test: LusExpr,
    on_true: LusExpr,
    on_false: LusExpr,
) -> Result<LusExpr, Memory>
    ensures { IfOk result
        (λ e. expr_tree e ≡ tree.choice (expr_tree test) (expr_tree on_true) (expr_tree on_false)) }
{
    Ok(LusExpr::If(
        Box::new(alloc, test)?,
        Box::new(alloc, on_true)?,
        Box::new(alloc, on_false)?,
    ))
}

/// One value at the first tick, and another one later.
pub fn arrow(alloc: Global, first: LusExpr, later: LusExpr) -> Result<LusExpr, Memory>
    ensures { IfOk result (λ e. expr_tree e ≡ tree.arrow (expr_tree first) (expr_tree later)) }
{
    Ok(LusExpr::Arrow(Box::new(alloc, first)?, Box::new(alloc, later)?))
}

/// A test and a further one, where there is one.
pub fn also(alloc: Global, first: LusExpr, second: Option<LusExpr>) -> Result<LusExpr, Memory>
    ensures { IfOk result
        (λ e. expr_tree e ≡ also_tree (expr_tree first) (option_map expr_tree second)) }
{
    match second {
        None => Ok(first),
        Some(second) => two(alloc, LusOp::And, first, second),
    }
}

/// A number with its sign. There is none for the least number of 64 bits, which no row starts with.
pub fn signed_number(alloc: Global, v: i64) -> Result<LusExpr, Memory>
    ensures { IfOk result
        (λ e. (place : List ℕ → ℕ) → expr_tree e ≡ renamed place (rows.signed_number v)) }
{
    if v >= 0 {
        return Ok(LusExpr::Number(v));
    }
    let Some(size) = v.checked_neg() else {
        return Err(Memory);
    };
    Ok(LusExpr::Neg(Box::new(alloc, LusExpr::Number(size))?))
}

/// A name has this value.
pub fn set(name: u32, value: LusExpr) -> LusEq
    ensures { equation_tree result ≡ tree.set 0 name (expr_tree value) }
{
    LusEq::Set {
        line: 0,
        name,
        value,
    }
}

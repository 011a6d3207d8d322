ghost use Rattle.std.specs.Prelude.{◌≡◌, IfOk, map};
ghost use Rattle.c_syntax.specs.Plain.{expr_tree, cond_tree};
ghost use Rattle.c_syntax.specs.Tree as tree;
ghost use Rattle.emit_row_code.specs.Balanced.{pairs, rounds, balanced};
ghost use Rattle.emit_row_code.specs.Joints.{join_of};

use crate::expression::{binary, both, either, truth};
use base_core::{Compare, Memory};
use c_syntax::{BinOp, Cond, Expr};
use std::alloc::Global;

/// How two tests are joined: both hold, one at least does, just one does.
#[derive(Clone, Copy, Drop)]
pub(crate) enum Joint {
    Both,
    Either,
    Differ,
}

/// Each two neighbours joined by an operator.
fn pairs_of_exprs(alloc: Global, op: BinOp, parts: Vec<Expr>) -> Result<Vec<Expr>, Memory>
    ensures { IfOk result
        (λ v. map expr_tree v.items ≡ pairs (tree.binary op) (map expr_tree parts.items)) }
{
    let mut pairs = Vec::new(alloc);
    let mut rest = parts.into_iter();
    while let Some(left) = rest.next() {
        let pair = match rest.next() {
            Some(right) => binary(alloc, op, left, right)?,
            None => left,
        };
        pairs.push(pair)?;
    }
    Ok(pairs)
}

/// All parts joined by an operator in four rounds, in which sixteen become one.
fn joined_exprs(alloc: Global, op: BinOp, parts: Vec<Expr>) -> Result<Vec<Expr>, Memory>
    ensures { IfOk result
        (λ v. map expr_tree v.items ≡ rounds (tree.binary op) (map expr_tree parts.items)) }
{
    let twos = pairs_of_exprs(alloc, op, parts)?;
    let fours = pairs_of_exprs(alloc, op, twos)?;
    let eights = pairs_of_exprs(alloc, op, fours)?;
    pairs_of_exprs(alloc, op, eights)
}

/// All parts joined by an operator, of which there are sixteen at most; `none` where there are none.
pub(crate) fn balanced_expr(
    alloc: Global,
    op: BinOp,
    none: Expr,
    parts: Vec<Expr>,
) -> Result<Expr, Memory>
    ensures { IfOk result
        (λ e. expr_tree e
        ≡ balanced (tree.binary op) (expr_tree none) (map expr_tree parts.items)) }
{
    let whole = joined_exprs(alloc, op, parts)?;
    Ok(whole.into_iter().next().unwrap_or(none))
}

/// Two tests joined.
fn joined(alloc: Global, joint: Joint, left: Cond, right: Cond) -> Result<Cond, Memory>
    ensures { IfOk result (λ c. cond_tree c ≡ join_of joint (cond_tree left) (cond_tree right)) }
{
    match joint {
        Joint::Both => both(alloc, left, right),
        Joint::Either => either(alloc, left, right),
        Joint::Differ => Ok(Cond::Compare(Compare::Ne, truth(alloc, left)?, truth(alloc, right)?)),
    }
}

/// Each two neighbours joined.
fn pairs_of_conds(alloc: Global, joint: Joint, parts: Vec<Cond>) -> Result<Vec<Cond>, Memory>
    ensures { IfOk result
        (λ v. map cond_tree v.items ≡ pairs (join_of joint) (map cond_tree parts.items)) }
{
    let mut pairs = Vec::new(alloc);
    let mut rest = parts.into_iter();
    while let Some(left) = rest.next() {
        let pair = match rest.next() {
            Some(right) => joined(alloc, joint, left, right)?,
            None => left,
        };
        pairs.push(pair)?;
    }
    Ok(pairs)
}

/// All tests joined in four rounds, in which sixteen become one.
fn joined_conds(alloc: Global, joint: Joint, parts: Vec<Cond>) -> Result<Vec<Cond>, Memory>
    ensures { IfOk result
        (λ v. map cond_tree v.items ≡ rounds (join_of joint) (map cond_tree parts.items)) }
{
    let twos = pairs_of_conds(alloc, joint, parts)?;
    let fours = pairs_of_conds(alloc, joint, twos)?;
    let eights = pairs_of_conds(alloc, joint, fours)?;
    pairs_of_conds(alloc, joint, eights)
}

/// All tests joined, of which there are sixteen at most; `none` where there are none.
pub(crate) fn balanced_cond(
    alloc: Global,
    joint: Joint,
    none: Cond,
    parts: Vec<Cond>,
) -> Result<Cond, Memory>
    ensures { IfOk result
        (λ c. cond_tree c ≡ balanced (join_of joint) (cond_tree none) (map cond_tree parts.items)) }
{
    let whole = joined_conds(alloc, joint, parts)?;
    Ok(whole.into_iter().next().unwrap_or(none))
}

// Expressions and conditions with their leaves moved.
ghost use Rattle.std.specs.Prelude.{◌≡◌, IfOk, map};
ghost use Rattle.c_syntax.specs.Tree as tree;
ghost use Rattle.c_syntax.specs.Tree.{exprs_of_list};
ghost use Rattle.c_syntax.specs.Plain.{expr_tree, cond_tree};
ghost use Rattle.emit_shape.specs.Relocation as moved;
ghost use Rattle.emit_linker.specs.Linked.{linked_outputs, relocation};

use crate::links::Links;
use crate::lists::number_at;
use base_core::Memory;
use c_syntax::{Cond, Expr, Leaf};
use std::alloc::Global;

/// The outputs of the child at a field.
fn outputs_at<'a>(links: &Links<'a>, field: u32) -> &'a [u32]
    ensures { result.now ≡ linked_outputs links.now field }
{
    match links.outputs.get(field as usize) {
        Some(outputs) => *outputs,
        None => links.beyond,
    }
}

/// A leaf in its new place.
fn moved_leaf(links: &Links<'_>, leaf: Leaf) -> Leaf
    ensures { result ≡ moved.moved_leaf (relocation links.now) leaf }
{
    match leaf {
        Leaf::Param(k) => Leaf::Param(k),
        Leaf::Own(f) => Leaf::Own(f),
        Leaf::Child(f, o) => Leaf::Child(f, number_at(outputs_at(links, f), o)),
    }
}

/// A call of a pure function.
fn call_of_pure(k: u32, values: Vec<Expr>) -> Expr
    ensures { expr_tree result ≡ tree.pure k (exprs_of_list (map expr_tree values.items)) }
{
    Expr::Pure(k, values)
}

/// An expression with its leaves moved.
#[cycle(expression)]
pub(crate) fn moved_expr(alloc: Global, links: &Links<'_>, e: &Expr) -> Result<Expr, Memory>
    ensures { IfOk result (λ x. expr_tree x ≡ moved.moved_expr (relocation links.now) (expr_tree e.now)) }
{
    match e {
        Expr::Literal(value) => Ok(Expr::Literal(*value)),
        Expr::Neg(operand) => {
            let operand = boxed_moved_expr(alloc, links, operand)?;
            Ok(Expr::Neg(operand))
        }
        Expr::Read(leaf) => Ok(Expr::Read(moved_leaf(links, *leaf))),
        Expr::Binary(op, left, right) => {
            let left = boxed_moved_expr(alloc, links, left)?;
            let right = boxed_moved_expr(alloc, links, right)?;
            Ok(Expr::Binary(*op, left, right))
        }
        Expr::Pick(test, on_true, on_false) => {
            let test = boxed_moved_cond(alloc, links, test)?;
            let on_true = boxed_moved_expr(alloc, links, on_true)?;
            let on_false = boxed_moved_expr(alloc, links, on_false)?;
            Ok(Expr::Pick(test, on_true, on_false))
        }
        Expr::Pure(k, values) => {
            let values = moved_exprs(alloc, links, values.as_slice())?;
            Ok(call_of_pure(*k, values))
        }
        Expr::At(field, index) => {
            let index = boxed_moved_expr(alloc, links, index)?;
            Ok(Expr::At(*field, index))
        }
    }
}

/// An expression with its leaves moved, in a box.
#[cycle(expression)]
pub(crate) fn boxed_moved_expr(
    alloc: Global,
    links: &Links<'_>,
    e: &Expr,
) -> Result<Box<Expr>, Memory>
    ensures { IfOk result
        (λ x. expr_tree x.value ≡ moved.moved_expr (relocation links.now) (expr_tree e.now)) }
{
    let e = moved_expr(alloc, links, e)?;
    Ok(Box::new(alloc, e)?)
}

/// Expressions with their leaves moved.
#[cycle(expression)]
pub(crate) fn moved_exprs(
    alloc: Global,
    links: &Links<'_>,
    es: &[Expr],
) -> Result<Vec<Expr>, Memory>
    ensures { IfOk result (λ v. exprs_of_list (map expr_tree v.items)
        ≡ moved.moved_exprs (relocation links.now) (exprs_of_list (map expr_tree es.now))) }
{
    let mut list = Vec::new(alloc);
    for e in es {
        list.push(moved_expr(alloc, links, e)?)?;
    }
    Ok(list)
}

/// A condition with its leaves moved.
#[cycle(expression)]
pub(crate) fn moved_cond(alloc: Global, links: &Links<'_>, test: &Cond) -> Result<Cond, Memory>
    ensures { IfOk result (λ c. cond_tree c
        ≡ moved.moved_cond (relocation links.now) (cond_tree test.now)) }
{
    match test {
        Cond::Compare(how, left, right) => {
            let left = boxed_moved_expr(alloc, links, left)?;
            let right = moved_expr(alloc, links, right)?;
            Ok(Cond::Compare(*how, Box::into_inner(left), right))
        }
        Cond::Both(left, right) => {
            let left = boxed_moved_cond(alloc, links, left)?;
            let right = boxed_moved_cond(alloc, links, right)?;
            Ok(Cond::Both(left, right))
        }
        Cond::Either(left, right) => {
            let left = boxed_moved_cond(alloc, links, left)?;
            let right = boxed_moved_cond(alloc, links, right)?;
            Ok(Cond::Either(left, right))
        }
        Cond::Not(operand) => {
            let operand = boxed_moved_cond(alloc, links, operand)?;
            Ok(Cond::Not(operand))
        }
    }
}

/// A condition with its leaves moved, in a box.
#[cycle(expression)]
fn boxed_moved_cond(alloc: Global, links: &Links<'_>, test: &Cond) -> Result<Box<Cond>, Memory>
    ensures { IfOk result
        (λ c. cond_tree c.value ≡ moved.moved_cond (relocation links.now) (cond_tree test.now)) }
{
    let test = moved_cond(alloc, links, test)?;
    Ok(Box::new(alloc, test)?)
}

// Whether two tests are written alike.
ghost use Rattle.std.specs.Prelude.{◌≡◌, map};
ghost use Rattle.c_syntax.specs.Tree.{exprs_of_list};
ghost use Rattle.c_syntax.specs.Plain.{cond_tree, expr_tree};
ghost use Rattle.emit_fused.specs.Same as same;

use base_core::Compare;
use c_syntax::{BinOp, Cond, Expr, Leaf};

/// Whether two leaves are one.
fn same_leaf(a: Leaf, b: Leaf) -> bool
    ensures { result ≡ same.same_leaf a b }
{
    match (a, b) {
        (Leaf::Param(j), Leaf::Param(k)) => j == k,
        (Leaf::Own(f), Leaf::Own(g)) => f == g,
        (Leaf::Child(f, g), Leaf::Child(h, i)) => f == h && g == i,
        _ => false,
    }
}

/// Whether two operators are one.
fn same_op(a: BinOp, b: BinOp) -> bool
    ensures { result ≡ same.same_op a b }
{
    a == b
}

/// Whether two comparisons are one.
fn same_compare(a: Compare, b: Compare) -> bool
    ensures { result ≡ same.same_compare a b }
{
    a == b
}

/// Whether two expressions are written alike.
#[cycle(expression)]
fn same_expr(a: &Expr, b: &Expr) -> bool
    ensures { result ≡ same.same_expr (expr_tree a.now) (expr_tree b.now) }
{
    match (a, b) {
        (Expr::Literal(v), Expr::Literal(w)) => *v == *w,
        (Expr::Neg(x), Expr::Neg(y)) => same_expr(x, y),
        (Expr::Read(k), Expr::Read(l)) => same_leaf(*k, *l),
        (Expr::Binary(op, x, y), Expr::Binary(other, z, w)) => {
            same_op(*op, *other) && same_expr(x, z) && same_expr(y, w)
        }
        (Expr::Pick(test, x, y), Expr::Pick(other, z, w)) => {
            same_cond(test, other) && same_expr(x, z) && same_expr(y, w)
        }
        (Expr::Pure(k, xs), Expr::Pure(j, ys)) => {
            *k == *j && same_exprs(xs.as_slice(), ys.as_slice())
        }
        (Expr::At(f, x), Expr::At(g, y)) => *f == *g && same_expr(x, y),
        _ => false,
    }
}

/// Whether two rows of expressions are written alike.
#[cycle(expression)]
fn same_exprs(xs: &[Expr], ys: &[Expr]) -> bool
    ensures { result
        ≡ same.same_exprs (exprs_of_list (map expr_tree xs.now))
        (exprs_of_list (map expr_tree ys.now)) }
{
    if xs.len() != ys.len() {
        return false;
    }
    for (position, x) in xs.iter().enumerate() {
        if !same_expr(x, &ys[position]) {
            return false;
        }
    }
    true
}

/// Whether two conditions are written alike.
#[cycle(expression)]
pub(crate) fn same_cond(a: &Cond, b: &Cond) -> bool
    ensures { result ≡ same.same_cond (cond_tree a.now) (cond_tree b.now) }
{
    match (a, b) {
        (Cond::Compare(how, x, y), Cond::Compare(other, z, w)) => {
            same_compare(*how, *other) && same_expr(x, z) && same_expr(y, w)
        }
        (Cond::Both(x, y), Cond::Both(z, w)) => same_cond(x, z) && same_cond(y, w),
        (Cond::Either(x, y), Cond::Either(z, w)) => same_cond(x, z) && same_cond(y, w),
        (Cond::Not(x), Cond::Not(y)) => same_cond(x, y),
        _ => false,
    }
}

/// Whether the first condition is `!` of the second.
pub(crate) fn is_not_of(a: &Cond, b: &Cond) -> bool
    ensures { result ≡ same.is_not_of (cond_tree a.now) (cond_tree b.now) }
{
    match a {
        Cond::Not(operand) => same_cond(operand, b),
        _ => false,
    }
}

/// Whether one of two conditions is `!` of the other.
pub(crate) fn opposite(a: &Cond, b: &Cond) -> bool
    ensures { result ≡ same.opposite (cond_tree a.now) (cond_tree b.now) }
{
    is_not_of(a, b) || is_not_of(b, a)
}

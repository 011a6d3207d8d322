// Where the expressions and the values of an instance are.
ghost use Rattle.std.specs.Prelude.{◌≡◌, List, ℤ, Option, take, drop, length, map, slice_get, option_map, option_and_then};
ghost use Rattle.lustre_syntax.specs.declared.code.LusExpr.{LusExpr};
ghost use Rattle.lustre_syntax.specs.Plain.{expr_tree, equation_tree, file_tree};
ghost use Rattle.lustre_syntax.specs.Tree.{node_at, expressions_of};
ghost use Rattle.lustre_slot_laws.specs.Outcomes as slots;

use lustre_slots::Placed;
use lustre_syntax::{LusEq, LusExpr, LusFile};

// So many items from a position on, as far as they are there.
#[inline(always)]
fn part<T>(items: &[T], from: usize, count: usize) -> &[T]
    ensures { result.now ≡ take count (drop from items.now) }
{
    if items.len() <= from {
        return &[];
    }
    let rest = &items[from..];
    if rest.len() <= count {
        rest
    } else {
        &rest[..count]
    }
}

/// How many names a node has.
#[inline(always)]
fn name_count(file: &LusFile, node: usize) -> usize
    ensures { result ≡ length (node_at (file_tree file.now).nodes node).names }
{
    match file.nodes.get(node) {
        Some(node) => node.names.len(),
        None => 0,
    }
}

/// The values of the names of an instance, as far as they are known.
#[inline(always)]
pub fn names_of<'a>(file: &LusFile, of: Placed, now: &'a [Option<i64>]) -> &'a [Option<i64>]
    ensures { result.now ≡ slots.names_of (file_tree file.now) of now.now }
{
    part(now, of.base, name_count(file, of.node))
}

/// The values that its names had.
#[inline(always)]
pub fn names_before<'a>(file: &LusFile, of: Placed, before: &'a [i64]) -> &'a [i64]
    ensures { result.now
        ≡ take (length (node_at (file_tree file.now).nodes of.node).names)
        (drop of.base before.now) }
{
    part(before, of.base, name_count(file, of.node))
}

/// The expressions of an equation, in their order.
#[inline(always)]
fn expression_in(equation: &LusEq, position: usize) -> Option<&LusExpr>
    ensures { option_map (λ e. expr_tree e.now) result
        ≡ slice_get (expressions_of (equation_tree equation.now)) position }
{
    match equation {
        LusEq::Set { value, .. } => { if position == 0 { Some(value) } else { None } }
        LusEq::Call { values, .. } => values.get(position),
    }
}

#[inline(always)]
fn expression_among(equations: &[LusEq], equation: usize, position: usize) -> Option<&LusExpr>
    ensures { option_map (λ e. expr_tree e.now) result
        ≡ option_and_then (λ e. slice_get (expressions_of e) position)
        (slice_get (map equation_tree equations.now) equation) }
{
    match equations.get(equation) {
        Some(equation) => expression_in(equation, position),
        None => None,
    }
}

/// The expression at the position of its node, its equation and itself.
#[inline(always)]
pub(crate) fn expression_at(
    file: &LusFile,
    node: usize,
    equation: usize,
    position: usize,
) -> Option<&LusExpr>
    ensures { option_map (λ e. expr_tree e.now) result
        ≡ slots.expression_at (file_tree file.now) node equation position }
{
    match file.nodes.get(node) {
        Some(node) => expression_among(&node.equations, equation, position),
        None => None,
    }
}

ghost use Rattle.std.specs.Prelude.{◌≡◌, ◌<◌, ◌^◌, IfOk, map, unsigned_abs};
ghost use Rattle.std.specs.Option.{option_and_then};
ghost use Rattle.c_syntax.specs.Plain.{expr_tree, cond_tree};
ghost use Rattle.emit_row_code.specs.RowCode as code;

use crate::balanced::{Joint, balanced_cond};
use crate::expression::{is_true, negated, written};
use crate::ranges::Range;
use base_core::{Compare, Memory};
use c_syntax::{Cond, Expr, Leaf};
use diagram_blocks::{Criterion, Logic};
use std::alloc::Global;

/// Which inputs are other than 0.
fn truths(alloc: Global, inputs: &[Leaf]) -> Result<Vec<Cond>, Memory>
    ensures { IfOk result (λ v. map cond_tree v.items ≡ code.truths inputs.now) }
{
    let mut truths = Vec::new(alloc);
    for leaf in inputs {
        truths.push(is_true(Expr::Read(*leaf)))?;
    }
    Ok(truths)
}

/// All tests hold.
fn all_hold(alloc: Global, tests: Vec<Cond>) -> Result<Cond, Memory>
    ensures { IfOk result (λ c. cond_tree c ≡ code.all_hold (map cond_tree tests.items)) }
{
    let always = Cond::Compare(Compare::Eq, Expr::Literal(0), Expr::Literal(0));
    balanced_cond(alloc, Joint::Both, always, tests)
}

/// A test that never holds.
fn never() -> Cond
    ensures { cond_tree result ≡ code.never }
{
    Cond::Compare(Compare::Ne, Expr::Literal(0), Expr::Literal(0))
}

/// One of the tests holds at least.
fn some_holds(alloc: Global, tests: Vec<Cond>) -> Result<Cond, Memory>
    ensures { IfOk result (λ c. cond_tree c ≡ code.some_holds (map cond_tree tests.items)) }
{
    balanced_cond(alloc, Joint::Either, never(), tests)
}

/// An odd number of the tests holds.
fn odd_hold(alloc: Global, tests: Vec<Cond>) -> Result<Cond, Memory>
    ensures { IfOk result (λ c. cond_tree c ≡ code.odd_hold (map cond_tree tests.items)) }
{
    balanced_cond(alloc, Joint::Differ, never(), tests)
}

/// A logical operator over inputs, each of which is true where it isn't 0.
pub(crate) fn logic(alloc: Global, op: Logic, inputs: &[Leaf]) -> Result<Cond, Memory>
    ensures { IfOk result (λ c. cond_tree c ≡ code.logic_code op (code.truths inputs.now)) }
{
    let tests = truths(alloc, inputs)?;
    match op {
        Logic::And => all_hold(alloc, tests),
        Logic::Or => some_holds(alloc, tests),
        Logic::Nand => negated(alloc, all_hold(alloc, tests)?),
        Logic::Nor => negated(alloc, some_holds(alloc, tests)?),
        Logic::Xor => odd_hold(alloc, tests),
        Logic::Nxor => negated(alloc, odd_hold(alloc, tests)?),
        Logic::Not => negated(alloc, some_holds(alloc, tests)?),
    }
}

/// A switch passes its first input, by its second one and a threshold in the type of that one.
pub(crate) fn passes(
    alloc: Global,
    criterion: Criterion,
    e: Expr,
    threshold: i64,
) -> Result<Cond, Memory>
    requires { unsigned_abs threshold < 2 ^ 63 }
    ensures { IfOk result (λ c. cond_tree c ≡ code.passes_code criterion (expr_tree e) threshold) }
{
    match criterion {
        Criterion::Ge => Ok(Cond::Compare(Compare::Ge, e, written(alloc, threshold)?)),
        Criterion::Gt => Ok(Cond::Compare(Compare::Gt, e, written(alloc, threshold)?)),
        Criterion::NotZero => Ok(is_true(e)),
    }
}

/// Whether a switch passes its first input for each number of a range alike, by a threshold.
pub(crate) fn passes_all(criterion: Criterion, threshold: i64, range: Option<Range>) -> Option<bool>
    ensures { result ≡ option_and_then (code.passes_all criterion threshold) range }
{
    let range = range?;
    match criterion {
        Criterion::Ge if threshold <= range.least => Some(true),
        Criterion::Ge if range.greatest < threshold => Some(false),
        Criterion::Gt if threshold < range.least => Some(true),
        Criterion::Gt if range.greatest <= threshold => Some(false),
        _ => None,
    }
}

// How many calls of functions an expression of C has.
ghost use Rattle.std.specs.Prelude.{◌≡◌, ◌+◌, IfOk, map};
ghost use Rattle.c_syntax.specs.Plain.{cond_tree, expr_tree};
ghost use Rattle.c_syntax.specs.Tree.{exprs_of_list};
ghost use Rattle.lustre_system.specs.FromC as from_c;

use base_core::Memory;
use c_syntax::{Cond, Expr};

// The sum of two counts, where it fits.
fn sum(a: u32, b: u32) -> Result<u32, Memory>
    ensures { IfOk result (λ n. n ≡ a + b) }
{
    match a.checked_add(b) {
        Some(n) => Ok(n),
        None => Err(Memory),
    }
}

/// How many calls an expression has.
#[cycle(call_count)]
pub(crate) fn call_count(e: &Expr) -> Result<u32, Memory>
    ensures { IfOk result (λ n. n ≡ from_c.call_count (expr_tree e.now)) }
{
    match e {
        Expr::Literal(_) | Expr::Read(_) => Ok(0),
        Expr::Neg(operand) => call_count(operand),
        Expr::Binary(_, left, right) => sum(call_count(left)?, call_count(right)?),
        Expr::Pick(test, on_true, on_false) => {
            let values = sum(call_count(on_true)?, call_count(on_false)?)?;
            sum(test_call_count(test)?, values)
        }
        Expr::Pure(_, values) => sum(call_counts(values.as_slice())?, 1),
        Expr::At(_, index) => call_count(index),
    }
}

// How many calls expressions have together.
#[cycle(call_count)]
fn call_counts(es: &[Expr]) -> Result<u32, Memory>
    ensures { IfOk result (λ n. n ≡ from_c.call_counts (exprs_of_list (map expr_tree es.now))) }
{
    let mut count = 0;
    for e in es {
        count = sum(count, call_count(e)?)?;
    }
    Ok(count)
}

// How many calls a condition has.
#[cycle(call_count)]
fn test_call_count(test: &Cond) -> Result<u32, Memory>
    ensures { IfOk result (λ n. n ≡ from_c.cond_call_count (cond_tree test.now)) }
{
    match test {
        Cond::Compare(_, left, right) => sum(call_count(left)?, call_count(right)?),
        Cond::Both(left, right) | Cond::Either(left, right) => {
            sum(test_call_count(left)?, test_call_count(right)?)
        }
        Cond::Not(operand) => test_call_count(operand),
    }
}

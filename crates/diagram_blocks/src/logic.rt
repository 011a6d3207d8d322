ghost use Rattle.std.specs.Prelude.{◌≡◌, map};
ghost use Rattle.std.specs.List.{list_all, list_any};
ghost use Rattle.diagram_blocks.specs.Value as value;

use crate::kind::{Criterion, Logic};
use base_core::Compare;

/// Whether two exact numbers in one unit compare so.
pub(crate) fn compares(compare: Compare, u: i64, v: i64) -> bool
    ensures { result ≡ value.compares compare u v }
{
    match compare {
        Compare::Eq => u == v,
        Compare::Ne => u != v,
        Compare::Lt => u < v,
        Compare::Le => u <= v,
        Compare::Ge => u >= v,
        Compare::Gt => u > v,
    }
}

/// Whether a switch passes its first input, by its second one.
pub(crate) fn passes(criterion: Criterion, u: i64, threshold: i64) -> bool
    ensures { result ≡ value.passes criterion u threshold }
{
    match criterion {
        Criterion::Ge => u >= threshold,
        Criterion::Gt => u > threshold,
        Criterion::NotZero => u != 0,
    }
}

/// Whether all inputs are other than 0.
fn all_true(inputs: &[i64]) -> bool
    ensures { result ≡ list_all value.is_true inputs.now }
{
    inputs.iter().all(|v| *v != 0)
}

/// Whether an input is other than 0.
fn any_true(inputs: &[i64]) -> bool
    ensures { result ≡ list_any value.is_true inputs.now }
{
    inputs.iter().any(|v| *v != 0)
}

/// Whether an odd number of inputs is other than 0.
fn odd_true(inputs: &[i64]) -> bool
    ensures { result ≡ value.odd_trues (map value.is_true inputs.now) }
{
    let mut odd = false;
    for v in inputs {
        odd = odd != (*v != 0);
    }
    odd
}

/// A logical operator over inputs, each of which is true where it isn't 0.
#[tactic(auto, using(crate::proofs::Truths::truths))]
pub(crate) fn logic(op: Logic, inputs: &[i64]) -> bool
    ensures { result ≡ value.logic_of op (map value.is_true inputs.now) }
{
    match op {
        Logic::And => all_true(inputs),
        Logic::Or => any_true(inputs),
        Logic::Nand => !all_true(inputs),
        Logic::Nor => !any_true(inputs),
        Logic::Xor => odd_true(inputs),
        Logic::Nxor => !odd_true(inputs),
        Logic::Not => !any_true(inputs),
    }
}

/// 1 for true, 0 for false.
pub(crate) fn number_of_bool(b: bool) -> i64
    ensures { result ≡ value.number_of_bool b }
{
    i64::from(b)
}

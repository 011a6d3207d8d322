ghost use Rattle.std.specs.Prelude.{◌≡◌, IfErr, List, Option, ℤ};
ghost use Rattle.lustre_syntax.specs.Plain.{expr_tree};
ghost use Rattle.lustre_flows.specs.Values.{Outcome, evaluate, read, read_before, value_at};
ghost use Rattle.lustre_evaluation.specs.Results.{number_outcome, result_outcome, IsWaiting};
ghost use Rattle.lustre_evaluation.specs.Views.{before_by};

use crate::arithmetic::{holds, negate, number_of, operate};
use crate::cause::Cause;
use crate::outcome::Unmet;
use lustre_flows::LusWhy;
use lustre_syntax::LusExpr;

/// What an expression sees: the values of its instance's names.
#[derive(Clone, Copy, Drop)]
pub struct View<'a> {
    /// Whether there was a tick before.
    pub begun: bool,
    /// The values of the tick before.
    pub before: &'a [i64],
    /// The values of this tick, as far as they are known.
    pub values: &'a [Option<i64>],
}

/// The value at a position of this tick.
#[inline(always)]
#[tactic(auto, using(crate::proofs::Waiting::name_waits, crate::proofs::Waiting::name_never))]
pub(crate) fn read(values: &[Option<i64>], position: usize) -> Result<i64, Unmet>
    ensures outcome { result_outcome result ≡ read (value_at values.now position) }
    ensures waits { IfErr result (IsWaiting (λ later. read (value_at later position)) values.now) }
{
    match values.get(position) {
        Some(Some(value)) => Ok(*value),
        Some(None) => Err(Unmet::Waits(position)),
        None => Err(Unmet::Never),
    }
}

// The value of a name of this tick.
#[inline(always)]
#[tactic(auto, using(crate::proofs::Waiting::name_waits, crate::proofs::Waiting::name_never))]
fn read_name(values: &[Option<i64>], name: u32) -> Result<i64, Cause>
    ensures outcome { result_outcome result ≡ read (value_at values.now name) }
    ensures waits { IfErr result (IsWaiting (λ later. read (value_at later name)) values.now) }
{
    match values.get(name as usize) {
        Some(Some(value)) => Ok(*value),
        Some(None) => Err(Cause::waits(name)),
        None => Err(Cause::never()),
    }
}

// The value of a name of the tick before.
#[inline(always)]
fn read_before(view: &View, name: u32) -> Result<i64, Cause>
    ensures outcome { result_outcome result
        ≡ read_before (before_by view.now.begun view.now.before.now) name }
    ensures waits { (values : List (Option ℤ)) → IfErr result (IsWaiting
        (λ later. read_before (before_by view.now.begun view.now.before.now) name) values) }
{
    if !view.begun {
        return Err(Cause::fails(LusWhy::Pre));
    }
    match view.before.get(name as usize) {
        Some(value) => Ok(*value),
        None => Err(Cause::never()),
    }
}

// What arithmetic gives.
#[inline(always)]
fn computed(number: Result<i64, LusWhy>) -> Result<i64, Cause>
    ensures outcome { result_outcome result ≡ number_outcome number }
    ensures waits { (outcome : List (Option ℤ) → Outcome) (values : List (Option ℤ)) →
        IfErr result (IsWaiting outcome values) }
{
    match number {
        Ok(value) => Ok(value),
        Err(why) => Err(Cause::fails(why)),
    }
}

// The value of an expression. Names and numbers, which most operands are, take no call.
#[cycle(evaluation)]
#[inline(always)]
fn operand(view: &View, e: &LusExpr) -> Result<i64, Cause>
    ensures outcome { result_outcome result
        ≡ evaluate (before_by view.now.begun view.now.before.now) view.now.values.now
        (expr_tree e.now) }
    ensures waits { IfErr result (IsWaiting
        (λ values. evaluate (before_by view.now.begun view.now.before.now) values (expr_tree e.now))
        view.now.values.now) }
{
    if let LusExpr::Name(name) = e {
        return read_name(view.values, *name);
    }
    if let LusExpr::Pre(name) = e {
        return read_before(view, *name);
    }
    if let LusExpr::Number(value) = e {
        return Ok(*value);
    }
    evaluate_any(view, e)
}

// The same, by a call.
#[cycle(evaluation)]
#[inline(never)]
fn evaluate_any(view: &View, e: &LusExpr) -> Result<i64, Cause>
    ensures outcome { result_outcome result
        ≡ evaluate (before_by view.now.begun view.now.before.now) view.now.values.now
        (expr_tree e.now) }
    ensures waits { IfErr result (IsWaiting
        (λ values. evaluate (before_by view.now.begun view.now.before.now) values (expr_tree e.now))
        view.now.values.now) }
{
    match e {
        LusExpr::Number(value) => Ok(*value),
        LusExpr::Truth(value) => Ok(number_of(*value)),
        LusExpr::Name(name) => read_name(view.values, *name),
        LusExpr::Neg(of) => computed(negate(operand(view, of)?)),
        LusExpr::Not(of) => Ok(number_of(!holds(operand(view, of)?))),
        LusExpr::Two(op, left, right) => {
            let x = match operand(view, left) {
                Ok(x) => x,
                Err(why) => return Err(why),
            };
            let y = match operand(view, right) {
                Ok(y) => y,
                Err(why) => return Err(why),
            };
            computed(operate(*op, x, y))
        }
        LusExpr::If(test, on_true, on_false) => {
            if holds(operand(view, test)?) {
                operand(view, on_true)
            } else {
                operand(view, on_false)
            }
        }
        LusExpr::Arrow(first, later) => {
            if view.begun {
                operand(view, later)
            } else {
                operand(view, first)
            }
        }
        LusExpr::Pre(name) => read_before(view, *name),
    }
}

/// The value of an expression.
///
/// # Errors
///
/// `Waits` exactly where it needs a name without a value before anything undefined, with the first such name; `Never` where it
/// so needs a name that is not there; `Fails` where it is undefined.
#[inline(always)]
pub fn evaluate(view: &View, e: &LusExpr) -> Result<i64, Unmet>
    ensures outcome { result_outcome result
        ≡ evaluate (before_by view.now.begun view.now.before.now) view.now.values.now
        (expr_tree e.now) }
    ensures waits { IfErr result (IsWaiting
        (λ values. evaluate (before_by view.now.begun view.now.before.now) values (expr_tree e.now))
        view.now.values.now) }
{
    match operand(view, e) {
        Ok(value) => Ok(value),
        Err(cause) => Err(cause.unmet()),
    }
}

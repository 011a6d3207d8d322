// Numbers of 64 bits, where each result is one or the operation is undefined.
ghost use Rattle.std.specs.Prelude.{◌≡◌, neg_ℤ};
ghost use Rattle.lustre_flows.specs.Values.{checked, quotient, remainder, operate, number_of, holds};
ghost use Rattle.lustre_evaluation.specs.Results.{number_outcome};

use lustre_flows::LusWhy;
use lustre_syntax::LusOp;

/// A negated number.
#[inline(always)]
pub(crate) fn negate(x: i64) -> Result<i64, LusWhy>
    ensures { number_outcome result ≡ checked (neg_ℤ x) }
{
    x.checked_neg().ok_or(LusWhy::Overflow)
}

/// A truth value as a number.
#[inline(always)]
pub(crate) fn number_of(holds: bool) -> i64
    ensures { result ≡ number_of holds }
{
    if holds { 1 } else { 0 }
}

/// Whether a number stands for `true`.
#[inline(always)]
pub(crate) fn holds(x: i64) -> bool
    ensures { result ≡ holds x }
{
    x != 0
}

#[inline(always)]
fn quotient(x: i64, y: i64) -> Result<i64, LusWhy>
    ensures { number_outcome result ≡ quotient x y }
{
    if y == 0 {
        return Err(LusWhy::ZeroDivisor);
    }
    x.checked_div(y).ok_or(LusWhy::Overflow)
}

#[inline(always)]
fn remainder(x: i64, y: i64) -> Result<i64, LusWhy>
    ensures { number_outcome result ≡ remainder x y }
{
    if y == 0 {
        return Err(LusWhy::ZeroDivisor);
    }
    x.checked_rem(y).ok_or(LusWhy::Overflow)
}

/// The result of an operator.
#[inline(always)]
pub(crate) fn operate(op: LusOp, x: i64, y: i64) -> Result<i64, LusWhy>
    ensures { number_outcome result ≡ operate op x y }
{
    match op {
        LusOp::Add => x.checked_add(y).ok_or(LusWhy::Overflow),
        LusOp::Sub => x.checked_sub(y).ok_or(LusWhy::Overflow),
        LusOp::Mul => x.checked_mul(y).ok_or(LusWhy::Overflow),
        LusOp::Div => quotient(x, y),
        LusOp::Mod => remainder(x, y),
        LusOp::Eq => Ok(number_of(x == y)),
        LusOp::Ne => Ok(number_of(x != y)),
        LusOp::Lt => Ok(number_of(x < y)),
        LusOp::Le => Ok(number_of(x <= y)),
        LusOp::Gt => Ok(number_of(x > y)),
        LusOp::Ge => Ok(number_of(x >= y)),
        LusOp::And => Ok(number_of(holds(x) && holds(y))),
        LusOp::Or => Ok(number_of(holds(x) || holds(y))),
    }
}

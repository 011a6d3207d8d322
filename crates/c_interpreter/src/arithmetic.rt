// Numbers of int64_t, where each result is a number of the type or the machine is stuck.
ghost use Rattle.std.specs.Prelude.{◌≡◌, ◌+◌, ◌<◌, IfOk, ◌≤ℤ◌, ◌↔◌, ℕ, pos, neg_ℤ, IsTrue, true};
ghost use Rattle.c_semantics.specs.Values.{stuck_at, within, operate, compares, is_in_type, take_step, gives, least_of, greatest_of};
ghost use Rattle.c_interpreter.specs.Answers.{answered, IsLater};
ghost use Rattle.c_interpreter.specs.Reads.{place_in};

use crate::halts::Halt;
use base_core::Compare;
use c_syntax::{BinOp, CType, Why};

/// The most steps of one call from outside.
const STEP_LIMIT: u64 = 1 << 32;

/// A negated number.
#[inline(always)]
pub(crate) fn negate(line: u32, x: i64) -> Result<i64, Halt>
    ensures { (steps : ℕ) →
        answered result steps ≡ within CType.I64 Why.Overflow line (neg_ℤ x) steps }
{
    x.checked_neg().ok_or(Halt::at(line, Why::Overflow))
}

fn divide(line: u32, x: i64, y: i64) -> Result<i64, Halt>
    ensures { (steps : ℕ) → answered result steps ≡ operate BinOp.Div line x y steps }
{
    if y == 0 {
        return Err(Halt::at(line, Why::ZeroDivisor));
    }
    x.checked_div(y).ok_or(Halt::at(line, Why::Overflow))
}

fn remainder(line: u32, x: i64, y: i64) -> Result<i64, Halt>
    ensures { (steps : ℕ) → answered result steps ≡ operate BinOp.Rem line x y steps }
{
    if y == 0 {
        return Err(Halt::at(line, Why::ZeroDivisor));
    }
    x.checked_rem(y).ok_or(Halt::at(line, Why::Overflow))
}

/// The result of an operator. Those that most expressions have are asked for one by one, since a jump by a table costs more.
#[inline(always)]
pub(crate) fn operate(op: BinOp, line: u32, x: i64, y: i64) -> Result<i64, Halt>
    ensures { (steps : ℕ) → answered result steps ≡ operate op line x y steps }
{
    if let BinOp::Add = op {
        return x.checked_add(y).ok_or(Halt::at(line, Why::Overflow));
    }
    if let BinOp::Sub = op {
        return x.checked_sub(y).ok_or(Halt::at(line, Why::Overflow));
    }
    if let BinOp::Mul = op {
        return x.checked_mul(y).ok_or(Halt::at(line, Why::Overflow));
    }
    operate_any(op, line, x, y)
}

// The same, by a call.
#[inline(never)]
fn operate_any(op: BinOp, line: u32, x: i64, y: i64) -> Result<i64, Halt>
    ensures { (steps : ℕ) → answered result steps ≡ operate op line x y steps }
{
    let overflow = Halt::at(line, Why::Overflow);
    match op {
        BinOp::Add => x.checked_add(y).ok_or(overflow),
        BinOp::Sub => x.checked_sub(y).ok_or(overflow),
        BinOp::Mul => x.checked_mul(y).ok_or(overflow),
        BinOp::Div => divide(line, x, y),
        BinOp::Rem => remainder(line, x, y),
    }
}

// Whether a comparison holds of a number and a greater one.
#[inline(always)]
fn holds_below(how: Compare) -> bool
    ensures { result ≡ compares how (pos 0) (pos 1) }
{
    matches!(how, Compare::Ne | Compare::Lt | Compare::Le)
}

// Whether a comparison holds of a number and itself.
#[inline(always)]
fn holds_of_same(how: Compare) -> bool
    ensures { result ≡ compares how (pos 0) (pos 0) }
{
    matches!(how, Compare::Eq | Compare::Le | Compare::Ge)
}

// Whether a comparison holds of a number and a less one.
#[inline(always)]
fn holds_above(how: Compare) -> bool
    ensures { result ≡ compares how (pos 1) (pos 0) }
{
    matches!(how, Compare::Ne | Compare::Ge | Compare::Gt)
}

/// Whether a comparison holds. The order of the numbers is met with what the comparison asks for, without a jump by a table.
#[inline(always)]
#[tactic(auto, using(crate::proofs::Orders::by_order))]
pub(crate) fn compares(how: Compare, x: i64, y: i64) -> bool
    ensures { result ≡ compares how x y }
{
    let below = (x < y) & holds_below(how);
    let same = (x == y) & holds_of_same(how);
    let above = (x > y) & holds_above(how);
    below | same | above
}

// The least number of each type, in the order of the types.
static LEAST: [i64; 7] = [-(1 << 7), 0, -(1 << 15), 0, -(1 << 31), 0, i64::MIN];

// The greatest number of each type.
static GREATEST: [i64; 7] = [
    0x7f,
    0xff,
    0x7fff,
    0xffff,
    0x7fff_ffff,
    0xffff_ffff,
    i64::MAX,
];

#[inline(always)]
fn least_of(of: CType) -> i64
    ensures { result ≡ least_of of }
{
    LEAST[of as usize]
}

#[inline(always)]
fn greatest_of(of: CType) -> i64
    ensures { result ≡ greatest_of of }
{
    GREATEST[of as usize]
}

/// Whether a number is one of a type.
#[inline(always)]
pub(crate) fn is_in_type(of: CType, value: i64) -> bool
    ensures { result ≡ is_in_type of value }
{
    let above = least_of(of) <= value;
    let below = value <= greatest_of(of);
    above & below
}

/// The place that an index stands for in an array of so many items.
#[inline(always)]
pub(crate) fn place_in(line: u32, count: u32, index: i64) -> Result<usize, Halt>
    ensures place { (steps : ℕ) → answered result steps ≡ place_in line count index steps }
    ensures inside { IfOk result (λ i. i < count) }
{
    if 0 <= index && index < i64::from(count) {
        Ok(index as usize)
    } else {
        Err(Halt::at(line, Why::Index))
    }
}

/// Takes one more step, unless that is one too many.
#[inline(always)]
pub(crate) fn take_step(line: u32, steps: &mut u64) -> Result<(), Halt>
    ensures taken { answered result steps.new ≡ take_step line steps.old (gives tt) }
    ensures later { IsLater steps.old steps.new }
    ensures one { IfOk result (λ u. steps.new ≡ steps.old + 1) }
{
    if *steps >= STEP_LIMIT {
        return Err(Halt::at(line, Why::Steps));
    }
    *steps += 1;
    Ok(())
}

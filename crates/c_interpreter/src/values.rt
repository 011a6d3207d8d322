// What expressions and conditions give.
ghost use Rattle.std.specs.Prelude.{◌≡◌, ◌≤◌, ℕ, List, [], length, map, slice_get};
ghost use Rattle.c_syntax.specs.Tree.{pure, exprs_of_list};
ghost use Rattle.c_syntax.specs.Plain.{expr_tree, cond_tree, pure_tree};
ghost use Rattle.c_semantics.specs.Values.{eval, eval_all, eval_cond, function_at, function_of, functions_of, reads, and_then, gives, index_in};
ghost use Rattle.base_core.specs.Numbers.{int_at};
ghost use Rattle.c_semantics.specs.Cells.{no_cells};
ghost use Rattle.c_interpreter.specs.Answers.{answered, judged, put_answer, IsLater};
ghost use Rattle.c_interpreter.specs.Reads.{view_leaf, view_array, view_reads, view_functions, IsNarrowExpr, AreNarrowExprs, IsNarrowCond, AreNarrow};

use crate::arithmetic::{compares, negate, operate, place_in, take_step};
use crate::halts::{Halt, Verdict, verdict_of};
use crate::slots::{Layout, Slot, number_behind, number_under, own_array, own_number};
use c_syntax::{Cond, Expr, Leaf, Pure};

/// What an expression sees: the pure functions before it, its arguments, the numbers and places of its instance, and its line.
#[derive(Clone, Copy)]
pub(crate) struct View<'a> {
    pub(crate) pures: &'a [Pure],
    pub(crate) layouts: &'a [Layout],
    pub(crate) slots: &'a [Slot],
    pub(crate) numbers: &'a [i64],
    pub(crate) values: &'a [i64],
    pub(crate) line: u32,
}

/// The most arguments of a call.
const ROOM: usize = 64;

/// As many arguments as nearly all calls have, whose room is filled with 0 in no time.
pub(crate) const FEW: usize = 8;

// So many of the items of a room for arguments.
pub(crate) fn first_of(room: &mut [i64; ROOM], count: usize) -> &mut [i64]
    requires { count ≤ 64 }
    ensures { length result.now ≡ count }
{
    &mut room[..count]
}

// So many of the items of a room for few arguments.
#[inline(always)]
pub(crate) fn first_of_few(room: &mut [i64; FEW], count: usize) -> &mut [i64]
    requires { count ≤ 8 }
    ensures { length result.now ≡ count }
{
    &mut room[..count]
}

// What the body of a pure function sees.
#[tactic(auto, using(crate::proofs::Evaluations::plain_reads))]
fn plain_view<'a>(pures: &'a [Pure], values: &'a [i64], line: u32) -> View<'a>
    ensures pures { result.pures.now ≡ pures.now }
    ensures line { result.line ≡ line }
    ensures reads { view_reads result ≡ reads values.now no_cells }
{
    View {
        pures,
        layouts: &[],
        slots: &[],
        numbers: &[],
        values,
        line,
    }
}

/// What a leaf reads.
#[inline(always)]
pub(crate) fn read(view: &View, leaf: Leaf) -> i64
    ensures { result ≡ view_leaf view.now leaf }
{
    match leaf {
        Leaf::Param(k) => view.values.get(k as usize).copied().unwrap_or(0),
        Leaf::Own(f) => own_number(view.slots, view.numbers, f),
        Leaf::Child(f, g) => number_under(view.layouts, view.slots, view.numbers, f, g),
    }
}

// The item at an index of an own array.
#[tactic(auto, using(crate::proofs::Items::item_gives, crate::proofs::Items::item_sticks))]
fn item_at(view: &View, field: u32, index: i64) -> Result<i64, Halt>
    ensures { (steps : ℕ) → answered result steps
        ≡ and_then (index_in view.now.line (view_array view.now field) index steps)
        (λ i count. gives (int_at (view_array view.now field) i) count) }
{
    let (at, count) = own_array(view.slots, field);
    let place = place_in(view.line, count, index)?;
    Ok(number_behind(view.numbers, at, place))
}

/// The value of an expression. Literals and leaves, which most operands are, take no call.
#[cycle(expression)]
#[inline(always)]
pub(crate) fn eval(view: &View, e: &Expr, steps: &mut u64) -> Result<i64, Halt>
    requires narrow { IsNarrowExpr (expr_tree e.now) }
    requires pures { AreNarrow (map pure_tree view.now.pures.now) }
    ensures value { answered result steps.new
        ≡ eval (view_functions view.now) (view_reads view.now) view.now.line
        (expr_tree e.now) steps.old }
    ensures later { IsLater steps.old steps.new }
{
    if let Expr::Read(leaf) = e {
        return Ok(read(view, *leaf));
    }
    if let Expr::Literal(value) = e {
        return Ok(*value);
    }
    eval_any(view, e, steps)
}

/// The same, by a call.
#[cycle(expression)]
#[inline(never)]
#[tactic(auto, using(crate::proofs::Evaluations::and_then_gives, crate::proofs::Evaluations::and_then_sticks, crate::proofs::Narrow::pure_narrow))]
pub(crate) fn eval_any(view: &View, e: &Expr, steps: &mut u64) -> Result<i64, Halt>
    requires narrow { IsNarrowExpr (expr_tree e.now) }
    requires pures { AreNarrow (map pure_tree view.now.pures.now) }
    ensures value { answered result steps.new
        ≡ eval (view_functions view.now) (view_reads view.now) view.now.line
        (expr_tree e.now) steps.old }
    ensures later { IsLater steps.old steps.new }
{
    match e {
        Expr::Literal(value) => Ok(*value),
        Expr::Neg(operand) => negate(view.line, eval(view, operand, steps)?),
        Expr::Read(leaf) => Ok(read(view, *leaf)),
        Expr::Binary(op, left, right) => {
            let x = match eval(view, left, steps) {
                Ok(x) => x,
                Err(at) => return Err(at),
            };
            let y = match eval(view, right, steps) {
                Ok(y) => y,
                Err(at) => return Err(at),
            };
            operate(*op, view.line, x, y)
        }
        Expr::Pick(test, on_true, on_false) => {
            match eval_cond(view, test, steps) {
                Verdict::Holds => eval(view, on_true, steps),
                Verdict::Fails => eval(view, on_false, steps),
                Verdict::Halts(at) => Err(at),
            }
        }
        Expr::Pure(k, values) => call_pure(view, *k, values, steps),
        Expr::At(field, index) => {
            let index = match eval(view, index, steps) {
                Ok(index) => index,
                Err(at) => return Err(at),
            };
            item_at(view, *field, index)
        }
    }
}

/// Whether a condition holds.
#[cycle(expression)]
#[tactic(auto, using(crate::proofs::Evaluations::and_then_gives, crate::proofs::Evaluations::and_then_sticks))]
pub(crate) fn eval_cond(view: &View, test: &Cond, steps: &mut u64) -> Verdict
    requires narrow { IsNarrowCond (cond_tree test.now) }
    requires pures { AreNarrow (map pure_tree view.now.pures.now) }
    ensures value { judged result steps.new
        ≡ eval_cond (view_functions view.now) (view_reads view.now) view.now.line
        (cond_tree test.now) steps.old }
    ensures later { IsLater steps.old steps.new }
{
    match test {
        Cond::Compare(how, left, right) => {
            let x = match eval(view, left, steps) {
                Ok(x) => x,
                Err(at) => return Verdict::Halts(at),
            };
            let y = match eval(view, right, steps) {
                Ok(y) => y,
                Err(at) => return Verdict::Halts(at),
            };
            verdict_of(compares(*how, x, y))
        }
        Cond::Both(left, right) => match eval_cond(view, left, steps) {
            Verdict::Holds => eval_cond(view, right, steps),
            Verdict::Fails => Verdict::Fails,
            Verdict::Halts(at) => Verdict::Halts(at),
        },
        Cond::Either(left, right) => match eval_cond(view, left, steps) {
            Verdict::Holds => Verdict::Holds,
            Verdict::Fails => eval_cond(view, right, steps),
            Verdict::Halts(at) => Verdict::Halts(at),
        },
        Cond::Not(operand) => match eval_cond(view, operand, steps) {
            Verdict::Holds => Verdict::Fails,
            Verdict::Fails => Verdict::Holds,
            Verdict::Halts(at) => Verdict::Halts(at),
        },
    }
}

#[cycle(expression)]
#[inline(always)]
fn call_pure(view: &View, k: u32, values: &[Expr], steps: &mut u64) -> Result<i64, Halt>
    requires narrow { IsNarrowExpr (pure k (exprs_of_list (map expr_tree values.now))) }
    requires pures { AreNarrow (map pure_tree view.now.pures.now) }
    ensures value { answered result steps.new
        ≡ eval (view_functions view.now) (view_reads view.now) view.now.line
        (pure k (exprs_of_list (map expr_tree values.now))) steps.old }
    ensures later { IsLater steps.old steps.new }
{
    if values.len() <= FEW {
        call_few(view, k, values, steps)
    } else {
        call_many(view, k, values, steps)
    }
}

#[cycle(expression)]
#[inline(never)]
fn call_few(view: &View, k: u32, values: &[Expr], steps: &mut u64) -> Result<i64, Halt>
    requires narrow { IsNarrowExpr (pure k (exprs_of_list (map expr_tree values.now))) }
    requires pures { AreNarrow (map pure_tree view.now.pures.now) }
    requires few { length values.now ≤ 8 }
    ensures value { answered result steps.new
        ≡ eval (view_functions view.now) (view_reads view.now) view.now.line
        (pure k (exprs_of_list (map expr_tree values.now))) steps.old }
    ensures later { IsLater steps.old steps.new }
{
    let mut room = [0; FEW];
    call_with(
        view,
        k,
        values,
        first_of_few(&mut room, values.len()),
        steps,
    )
}

#[cycle(expression)]
#[inline(never)]
fn call_many(view: &View, k: u32, values: &[Expr], steps: &mut u64) -> Result<i64, Halt>
    requires narrow { IsNarrowExpr (pure k (exprs_of_list (map expr_tree values.now))) }
    requires pures { AreNarrow (map pure_tree view.now.pures.now) }
    ensures value { answered result steps.new
        ≡ eval (view_functions view.now) (view_reads view.now) view.now.line
        (pure k (exprs_of_list (map expr_tree values.now))) steps.old }
    ensures later { IsLater steps.old steps.new }
{
    let mut room = [0; ROOM];
    call_with(view, k, values, first_of(&mut room, values.len()), steps)
}

#[cycle(expression)]
#[tactic(auto, using(crate::proofs::Evaluations::and_then_gives, crate::proofs::Evaluations::and_then_sticks))]
fn call_with(
    view: &View,
    k: u32,
    values: &[Expr],
    arguments: &mut [i64],
    steps: &mut u64,
) -> Result<i64, Halt>
    requires narrow { AreNarrowExprs (exprs_of_list (map expr_tree values.now)) }
    requires pures { AreNarrow (map pure_tree view.now.pures.now) }
    requires room { length arguments.old ≡ length values.now }
    ensures value { answered result steps.new
        ≡ eval (view_functions view.now) (view_reads view.now) view.now.line
        (pure k (exprs_of_list (map expr_tree values.now))) steps.old }
    ensures later { IsLater steps.old steps.new }
{
    eval_all(view, values, arguments, steps)?;
    run_pure(view.pures, k, arguments, steps)
}

// The values of expressions, from the left.
#[cycle(expression)]
#[tactic(auto, using(crate::proofs::Evaluations::and_then_gives, crate::proofs::Evaluations::and_then_sticks))]
fn eval_all(view: &View, values: &[Expr], out: &mut [i64], steps: &mut u64) -> Result<(), Halt>
    requires narrow { AreNarrowExprs (exprs_of_list (map expr_tree values.now)) }
    requires pures { AreNarrow (map pure_tree view.now.pures.now) }
    requires room { length out.old ≡ length values.now }
    ensures value { put_answer result out.new steps.new
        ≡ eval_all (view_functions view.now) (view_reads view.now) view.now.line
        (exprs_of_list (map expr_tree values.now)) steps.old }
    ensures later { IsLater steps.old steps.new }
{
    for (i, e) in values.iter().enumerate() {
        out[i] = eval(view, e, steps)?;
    }
    Ok(())
}

// A call of the pure function at a position.
#[cycle(expression)]
#[tactic(auto, using(crate::proofs::Evaluations::function_there, crate::proofs::Evaluations::function_past, crate::proofs::Narrow::pures_take, crate::proofs::Narrow::pures_at, crate::proofs::Measures::bodies_at))]
fn run_pure(pures: &[Pure], k: u32, values: &[i64], steps: &mut u64) -> Result<i64, Halt>
    requires pures { AreNarrow (map pure_tree pures.now) }
    ensures value { answered result steps.new
        ≡ function_at (functions_of [] (map pure_tree pures.now)) k values.now steps.old }
    ensures later { IsLater steps.old steps.new }
{
    match pures.get(k as usize) {
        Some(pure) => run_body(&pures[..k as usize], pure, values, steps),
        None => Ok(0),
    }
}

// One step, at the line of the function's `return`, and its body.
#[cycle(expression)]
#[tactic(auto, using(crate::proofs::Evaluations::function_gives, crate::proofs::Evaluations::function_sticks))]
fn run_body(earlier: &[Pure], pure: &Pure, values: &[i64], steps: &mut u64) -> Result<i64, Halt>
    requires pures { AreNarrow (map pure_tree earlier.now) }
    requires narrow { IsNarrowExpr (expr_tree pure.now.body) }
    ensures value { answered result steps.new
        ≡ function_of (functions_of [] (map pure_tree earlier.now))
        (pure_tree pure.now) values.now steps.old }
    ensures later { IsLater steps.old steps.new }
{
    take_step(pure.line, steps)?;
    let view = plain_view(earlier, values, pure.line);
    eval(&view, &pure.body, steps)
}

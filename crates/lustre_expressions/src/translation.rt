// Expressions of C as Lustre.
ghost use Rattle.std.specs.Prelude.{◌≡◌, ◌++◌, ◌∷◌, ◌+◌, [], IfOk, map};
ghost use Rattle.c_syntax.specs.Plain.{expr_tree, cond_tree};
ghost use Rattle.c_syntax.specs.Tree.{exprs_of_list};
ghost use Rattle.lustre_syntax.specs.Plain as lustre;
ghost use Rattle.lustre_syntax.specs.Tree.{call};
ghost use Rattle.lustre_system.specs.Functions.{function_name};
ghost use Rattle.lustre_system.specs.FromC as from_c;
ghost use Rattle.lustre_expressions.specs.Placed.{placed_value, placed_values, placed_test, placed_calls, all_placed_calls, placed_test_calls};

use crate::naming::Naming;
use base_core::{Compare, Memory, Wires};
use c_syntax::{BinOp, Cond, Expr};
use lustre_syntax::{LusEq, LusExpr, LusOp};
use std::alloc::Global;

/// The calls of functions so far, and how many there are.
#[derive(Drop)]
pub struct Calls {
    /// An equation for each call, in order.
    pub equations: Vec<LusEq>,
    /// How many calls there are.
    pub count: u32,
}

/// The operator of Lustre for one of C.
pub fn operator(op: BinOp) -> LusOp
    ensures { result ≡ from_c.operator op }
{
    match op {
        BinOp::Add => LusOp::Add,
        BinOp::Sub => LusOp::Sub,
        BinOp::Mul => LusOp::Mul,
        BinOp::Div => LusOp::Div,
        BinOp::Rem => LusOp::Mod,
    }
}

/// The operator of Lustre for a comparison.
pub fn comparison(how: Compare) -> LusOp
    ensures { result ≡ from_c.comparison how }
{
    match how {
        Compare::Eq => LusOp::Eq,
        Compare::Ne => LusOp::Ne,
        Compare::Lt => LusOp::Lt,
        Compare::Le => LusOp::Le,
        Compare::Ge => LusOp::Ge,
        Compare::Gt => LusOp::Gt,
    }
}

/// Adds the call of a function with these arguments; gives the place of its value.
fn push_call<N: Naming>(
    alloc: Global,
    names: &N,
    calls: &mut Calls,
    function: u32,
    values: Vec<LusExpr>,
) -> Result<u32, Memory>
    ensures place { IfOk result (λ k. k ≡ (N.naming names.now).place
        ((N.naming names.now).part_name (calls.old.count + 1))) }
    ensures calls { IfOk result (λ k. map lustre.equation_tree calls.new.equations.items
        ≡ map lustre.equation_tree calls.old.equations.items
        ++ call 0 (k ∷ []) ((N.naming names.now).callee (function_name function))
        (map lustre.expr_tree values.items) ∷ []) }
    ensures count { IfOk result (λ _. calls.new.count ≡ calls.old.count + 1) }
{
    let Some(count) = calls.count.checked_add(1) else {
        return Err(Memory);
    };
    let place = names.part_place(alloc, count)?;
    let node = names.function_place(function)?;
    let mut given = Vec::new(alloc);
    given.push(place)?;
    calls.equations.push(LusEq::Call {
        line: 0,
        names: Wires::new(given),
        node,
        values,
    })?;
    calls.count = count;
    Ok(place)
}

/// The value of an expression after these calls; its calls are added to them.
#[cycle(translation)]
pub fn value_from<N: Naming>(
    alloc: Global,
    names: &N,
    calls: &mut Calls,
    e: &Expr,
) -> Result<LusExpr, Memory>
    ensures value { IfOk result (λ x. lustre.expr_tree x
        ≡ placed_value (N.naming names.now) calls.old.count (expr_tree e.now)) }
    ensures calls { IfOk result (λ _. map lustre.equation_tree calls.new.equations.items
        ≡ map lustre.equation_tree calls.old.equations.items
        ++ placed_calls (N.naming names.now) calls.old.count (expr_tree e.now)) }
    ensures count { IfOk result (λ _. calls.new.count
        ≡ calls.old.count + from_c.call_count (expr_tree e.now)) }
{
    match e {
        Expr::Literal(value) => Ok(LusExpr::Number(*value)),
        Expr::Neg(operand) => {
            let operand = boxed_value_from(alloc, names, calls, operand)?;
            Ok(LusExpr::Neg(operand))
        }
        Expr::Read(leaf) => {
            let place = names.leaf_place(alloc, *leaf)?;
            Ok(LusExpr::Name(place))
        }
        Expr::Binary(op, left, right) => {
            let left = boxed_value_from(alloc, names, calls, left)?;
            let right = boxed_value_from(alloc, names, calls, right)?;
            Ok(LusExpr::Two(operator(*op), left, right))
        }
        Expr::Pick(test, on_true, on_false) => {
            let test = boxed_test_from(alloc, names, calls, test)?;
            let on_true = boxed_value_from(alloc, names, calls, on_true)?;
            let on_false = boxed_value_from(alloc, names, calls, on_false)?;
            Ok(LusExpr::If(test, on_true, on_false))
        }
        Expr::Pure(function, values) => {
            let values = values_from(alloc, names, calls, values.as_slice())?;
            let place = push_call(alloc, names, calls, *function, values)?;
            Ok(LusExpr::Name(place))
        }
        Expr::At(_, index) => {
            calls.count = count_after(alloc, names, calls.count, index)?;
            Ok(LusExpr::Number(0))
        }
    }
}

/// How many calls there are after those of an expression that is left out.
#[cycle(translation)]
fn count_after<N: Naming>(alloc: Global, names: &N, count: u32, e: &Expr) -> Result<u32, Memory>
    ensures { IfOk result (λ n. n ≡ count + from_c.call_count (expr_tree e.now)) }
{
    let equations = Vec::new(alloc);
    let mut calls = Calls { equations, count };
    value_from(alloc, names, &mut calls, e)?;
    Ok(calls.count)
}

/// The same in a box.
#[cycle(translation)]
fn boxed_value_from<N: Naming>(
    alloc: Global,
    names: &N,
    calls: &mut Calls,
    e: &Expr,
) -> Result<Box<LusExpr>, Memory>
    ensures value { IfOk result (λ x. lustre.expr_tree x.value
        ≡ placed_value (N.naming names.now) calls.old.count (expr_tree e.now)) }
    ensures calls { IfOk result (λ _. map lustre.equation_tree calls.new.equations.items
        ≡ map lustre.equation_tree calls.old.equations.items
        ++ placed_calls (N.naming names.now) calls.old.count (expr_tree e.now)) }
    ensures count { IfOk result (λ _. calls.new.count
        ≡ calls.old.count + from_c.call_count (expr_tree e.now)) }
{
    let e = value_from(alloc, names, calls, e)?;
    Ok(Box::new(alloc, e)?)
}

/// The values of expressions after these calls; their calls are added to them.
#[cycle(translation)]
fn values_from<N: Naming>(
    alloc: Global,
    names: &N,
    calls: &mut Calls,
    es: &[Expr],
) -> Result<Vec<LusExpr>, Memory>
    ensures value { IfOk result (λ v. map lustre.expr_tree v.items
        ≡ placed_values (N.naming names.now) calls.old.count
        (exprs_of_list (map expr_tree es.now))) }
    ensures calls { IfOk result (λ _. map lustre.equation_tree calls.new.equations.items
        ≡ map lustre.equation_tree calls.old.equations.items
        ++ all_placed_calls (N.naming names.now) calls.old.count
        (exprs_of_list (map expr_tree es.now))) }
    ensures count { IfOk result (λ _. calls.new.count
        ≡ calls.old.count + from_c.call_counts (exprs_of_list (map expr_tree es.now))) }
{
    let mut list = Vec::new(alloc);
    for e in es {
        list.push(value_from(alloc, names, calls, e)?)?;
    }
    Ok(list)
}

/// The value of a condition after these calls; its calls are added to them.
#[cycle(translation)]
pub fn test_from<N: Naming>(
    alloc: Global,
    names: &N,
    calls: &mut Calls,
    test: &Cond,
) -> Result<LusExpr, Memory>
    ensures value { IfOk result (λ x. lustre.expr_tree x
        ≡ placed_test (N.naming names.now) calls.old.count (cond_tree test.now)) }
    ensures calls { IfOk result (λ _. map lustre.equation_tree calls.new.equations.items
        ≡ map lustre.equation_tree calls.old.equations.items
        ++ placed_test_calls (N.naming names.now) calls.old.count (cond_tree test.now)) }
    ensures count { IfOk result (λ _. calls.new.count
        ≡ calls.old.count + from_c.cond_call_count (cond_tree test.now)) }
{
    match test {
        Cond::Compare(how, left, right) => {
            let left = boxed_value_from(alloc, names, calls, left)?;
            let right = boxed_value_from(alloc, names, calls, right)?;
            Ok(LusExpr::Two(comparison(*how), left, right))
        }
        Cond::Both(left, right) => {
            let left = boxed_test_from(alloc, names, calls, left)?;
            let right = boxed_test_from(alloc, names, calls, right)?;
            Ok(LusExpr::Two(LusOp::And, left, right))
        }
        Cond::Either(left, right) => {
            let left = boxed_test_from(alloc, names, calls, left)?;
            let right = boxed_test_from(alloc, names, calls, right)?;
            Ok(LusExpr::Two(LusOp::Or, left, right))
        }
        Cond::Not(operand) => {
            let operand = boxed_test_from(alloc, names, calls, operand)?;
            Ok(LusExpr::Not(operand))
        }
    }
}

/// The same in a box.
#[cycle(translation)]
fn boxed_test_from<N: Naming>(
    alloc: Global,
    names: &N,
    calls: &mut Calls,
    test: &Cond,
) -> Result<Box<LusExpr>, Memory>
    ensures value { IfOk result (λ x. lustre.expr_tree x.value
        ≡ placed_test (N.naming names.now) calls.old.count (cond_tree test.now)) }
    ensures calls { IfOk result (λ _. map lustre.equation_tree calls.new.equations.items
        ≡ map lustre.equation_tree calls.old.equations.items
        ++ placed_test_calls (N.naming names.now) calls.old.count (cond_tree test.now)) }
    ensures count { IfOk result (λ _. calls.new.count
        ≡ calls.old.count + from_c.cond_call_count (cond_tree test.now)) }
{
    let test = test_from(alloc, names, calls, test)?;
    Ok(Box::new(alloc, test)?)
}

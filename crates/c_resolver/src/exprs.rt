// Expressions and conditions.
ghost use Rattle.std.specs.Prelude.{◌≡◌, map};
ghost use Rattle.c_syntax.specs.Tree as tree;
ghost use Rattle.c_syntax.specs.Tree.{exprs_of_list};
ghost use Rattle.c_syntax.specs.Plain.{expr_tree, cond_tree};
ghost use Rattle.c_grammar.specs.Written.{pure};
ghost use Rattle.c_grammar.specs.Parsing.{exprs_from};
ghost use Rattle.c_rules.specs.Resolve as rules;
ghost use Rattle.c_grammar.specs.WrittenTrees.{expr_of, cond_of};
ghost use Rattle.c_rules.specs.Gives.{Gives};
ghost use Rattle.c_resolver.specs.Scopes.{known_of, names_of};

use crate::fields::{resolve_array, resolve_leaf};
use crate::known::{Known, Scope};
use c_grammar::{ReadCFault, WrittenCond, WrittenExpr};
use c_rules::on_line;
use c_syntax::{CKind, Cond, Expr};
use std::alloc::Global;

/// The position of a pure function that is defined before and takes so many values.
fn resolve_pure_call(known: &Known, name: &[u8], count: usize) -> Result<u32, CKind>
    ensures { result ≡ rules.resolve_pure_call (known_of known.now) name.now count }
{
    match known.pure(name) {
        Some((k, pure)) => {
            if pure.params.len() == count {
                Ok(k)
            } else {
                Err(CKind::TypeRule)
            }
        }
        None => Err(CKind::Name),
    }
}

/// The position of a pure function that is called with these values.
fn resolve_callee(known: &Known, name: &[u8], values: &[WrittenExpr]) -> Result<u32, CKind>
    ensures { result
        ≡ rules.resolve_pure_call (known_of known.now) name.now
        (rules.exprs_count (exprs_from (map expr_of values.now))) }
{
    resolve_pure_call(known, name, values.len())
}

/// A call of a pure function.
fn call_of_pure(k: u32, values: Vec<Expr>) -> Expr
    ensures { expr_tree result ≡ tree.pure k (exprs_of_list (map expr_tree values.items)) }
{
    Expr::Pure(k, values)
}

/// What an expression stands for.
#[cycle(expression)]
pub(crate) fn resolve_expr(
    alloc: Global,
    scope: &Scope,
    e: &WrittenExpr,
) -> Result<Expr, ReadCFault>
    ensures { Gives expr_tree result (rules.resolve_expr (names_of scope.now) (expr_of e.now)) }
{
    match e {
        WrittenExpr::Literal(number) => Ok(Expr::Literal(number.value as i64)),
        WrittenExpr::Neg(operand) => {
            let operand = resolve_boxed(alloc, scope, operand)?;
            Ok(Expr::Neg(operand))
        }
        WrittenExpr::Read { line, leaf } => {
            let leaf = on_line(*line, resolve_leaf(scope, *leaf))?;
            Ok(Expr::Read(leaf))
        }
        WrittenExpr::Binary(op, left, right) => {
            let left = resolve_boxed(alloc, scope, left)?;
            let right = resolve_boxed(alloc, scope, right)?;
            Ok(Expr::Binary(*op, left, right))
        }
        WrittenExpr::Pick(test, on_true, on_false) => {
            let test = resolve_boxed_cond(alloc, scope, test)?;
            let on_true = resolve_boxed(alloc, scope, on_true)?;
            let on_false = resolve_boxed(alloc, scope, on_false)?;
            Ok(Expr::Pick(test, on_true, on_false))
        }
        WrittenExpr::Pure {
            line,
            function,
            values,
        } => resolve_call_of_pure(alloc, scope, *line, function, values.as_slice()),
        WrittenExpr::Item { line, field, index } => {
            let field = on_line(*line, resolve_array(scope, field))?;
            let index = resolve_boxed(alloc, scope, index)?;
            Ok(Expr::At(field, index))
        }
    }
}

/// The same in a box.
#[cycle(expression)]
pub(crate) fn resolve_boxed(
    alloc: Global,
    scope: &Scope,
    e: &WrittenExpr,
) -> Result<Box<Expr>, ReadCFault>
    ensures { Gives (λ b. expr_tree b.value) result
        (rules.resolve_expr (names_of scope.now) (expr_of e.now)) }
{
    let e = resolve_expr(alloc, scope, e)?;
    Ok(Box::new(alloc, e)?)
}

/// What a call of a pure function stands for.
#[cycle(expression)]
fn resolve_call_of_pure(
    alloc: Global,
    scope: &Scope,
    line: u32,
    function: &[u8],
    values: &[WrittenExpr],
) -> Result<Expr, ReadCFault>
    ensures { Gives expr_tree result
        (rules.resolve_expr (names_of scope.now)
        (pure line function.now (exprs_from (map expr_of values.now)))) }
{
    let k = on_line(line, resolve_callee(scope.known, function, values))?;
    let values = resolve_exprs(alloc, scope, values)?;
    Ok(call_of_pure(k, values))
}

/// What expressions stand for.
#[cycle(expression)]
fn resolve_exprs(alloc: Global, scope: &Scope, es: &[WrittenExpr]) -> Result<Vec<Expr>, ReadCFault>
    ensures { Gives (λ v. exprs_of_list (map expr_tree v.items)) result
        (rules.resolve_exprs (names_of scope.now) (exprs_from (map expr_of es.now))) }
{
    let mut resolved = Vec::new(alloc);
    for e in es {
        resolved.push(resolve_expr(alloc, scope, e)?)?;
    }
    Ok(resolved)
}

/// What a condition stands for.
#[cycle(expression)]
fn resolve_cond(alloc: Global, scope: &Scope, test: &WrittenCond) -> Result<Cond, ReadCFault>
    ensures { Gives cond_tree result (rules.resolve_cond (names_of scope.now) (cond_of test.now)) }
{
    match test {
        WrittenCond::Compare(how, left, right) => {
            let left = resolve_boxed(alloc, scope, left)?;
            let right = resolve_expr(alloc, scope, right)?;
            Ok(Cond::Compare(*how, Box::into_inner(left), right))
        }
        WrittenCond::Both(left, right) => {
            let left = resolve_boxed_cond(alloc, scope, left)?;
            let right = resolve_boxed_cond(alloc, scope, right)?;
            Ok(Cond::Both(left, right))
        }
        WrittenCond::Either(left, right) => {
            let left = resolve_boxed_cond(alloc, scope, left)?;
            let right = resolve_boxed_cond(alloc, scope, right)?;
            Ok(Cond::Either(left, right))
        }
        WrittenCond::Not(operand) => {
            let operand = resolve_boxed_cond(alloc, scope, operand)?;
            Ok(Cond::Not(operand))
        }
    }
}

/// The same in a box.
#[cycle(expression)]
pub(crate) fn resolve_boxed_cond(
    alloc: Global,
    scope: &Scope,
    test: &WrittenCond,
) -> Result<Box<Cond>, ReadCFault>
    ensures { Gives (λ b. cond_tree b.value) result
        (rules.resolve_cond (names_of scope.now) (cond_of test.now)) }
{
    let test = resolve_cond(alloc, scope, test)?;
    Ok(Box::new(alloc, test)?)
}

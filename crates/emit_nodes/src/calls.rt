ghost use Rattle.std.specs.Prelude.{◌≡◌, ◌<◌, [], All, IfOk, length, map, slice_index_or};
ghost use Rattle.std.specs.List.{range_with_len};
ghost use Rattle.c_syntax.specs.Tree.{branch, no_stmts, read};
ghost use Rattle.c_syntax.specs.Plain.{cond_tree, expr_tree, stmt_tree};
ghost use Rattle.emit_system_spec.specs.EmittedCode as emitted;
ghost use Rattle.emit_nodes.specs.Code.{code_of};

use crate::lists::push_code;
use base_core::{Compare, Memory};
use c_syntax::{Cond, Expr, Leaf, Stmt, Target};
use emit_layout::Params;
use std::alloc::Global;

/// Statements that run where a test holds.
fn under(alloc: Global, test: Cond, yes: Vec<Stmt>) -> Stmt
    ensures { stmt_tree result ≡ branch 0 (cond_tree test) (code_of yes.items) no_stmts }
{
    Stmt::If {
        line: 0,
        test,
        yes,
        no: Vec::new(alloc),
    }
}

/// Code that runs once until its counter, an own field, is brought back to 0; without a counter it
/// always runs.
///
/// Fails only when memory runs out.
pub fn counted(alloc: Global, counter: Option<u32>, code: Vec<Stmt>) -> Result<Vec<Stmt>, Memory>
    ensures { IfOk result (λ v. code_of v.items ≡ emitted.counted counter (code_of code.items)) }
{
    let Some(field) = counter else {
        return Ok(code);
    };
    let mut once = Vec::new(alloc);
    once.push(Stmt::Set {
        line: 0,
        field,
        value: Expr::Literal(1),
    })?;
    push_code(&mut once, code)?;
    let first = Cond::Compare(Compare::Eq, Expr::Read(Leaf::Own(field)), Expr::Literal(0));
    let mut counted = Vec::new(alloc);
    counted.push(under(alloc, first, once))?;
    Ok(counted)
}

/// What leaves read.
fn reads(alloc: Global, leaves: &[Leaf]) -> Result<Vec<Expr>, Memory>
    ensures { IfOk result (λ v. map expr_tree v.items ≡ map read leaves.now) }
{
    let mut reads = Vec::new(alloc);
    for leaf in leaves {
        reads.push(Expr::Read(*leaf))?;
    }
    Ok(reads)
}

/// A call of the own procedure at a position, to which parameters of the caller are passed on.
fn own_call(alloc: Global, params: &Params, procedure: u32, wanted: &Params) -> Result<Stmt, Memory>
    ensures { IfOk result (λ s. stmt_tree s ≡ emitted.own_call params.now procedure wanted.now) }
{
    let leaves = params.leaves_of(alloc, wanted)?;
    Ok(Stmt::Call {
        line: 0,
        procedure,
        target: Target::Own,
        values: reads(alloc, &leaves)?,
    })
}

/// Calls of groups, whose parameters are given by their numbers.
///
/// Fails only when memory runs out.
pub fn own_calls(
    alloc: Global,
    params: &Params,
    called: &[u32],
    wanted: &[Params],
) -> Result<Vec<Stmt>, Memory>
    requires { All (λ g. g < length wanted.now) called.now }
    ensures { IfOk result (λ v. map stmt_tree v.items
        ≡ map (λ g. emitted.own_call params.now g (slice_index_or wanted.now g [])) called.now) }
{
    let mut calls = Vec::new(alloc);
    for group in called {
        calls.push(own_call(alloc, params, *group, &wanted[*group as usize])?)?;
    }
    Ok(calls)
}

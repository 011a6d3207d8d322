// Which pure functions a program needs.
ghost use Rattle.std.specs.Prelude.{◌≡◌, ◌<◌, ℕ, List, true, MatchBool, IfOk, length, map};
ghost use Rattle.std.specs.List.{slice_set};
ghost use Rattle.c_syntax.specs.Tree.{exprs_of_list, stmts_of_list};
ghost use Rattle.c_syntax.specs.Plain.{cond_tree, expr_tree, procedure_tree, pure_tree, stmt_tree};
ghost use Rattle.emit_pruned.specs.Calls.{cond_functions, expr_functions, exprs_functions, procedures_functions, stmt_functions, stmts_functions};
ghost use Rattle.emit_pruned.specs.Needed.{needed_from};
ghost use Rattle.emit_pruned.specs.Marks.{flag_at, flags_of, marked, needed_flags};

use base_core::Memory;
use c_syntax::{Cond, Expr, Procedure, Pure, Stmt};
use std::alloc::Global;

/// Marks the function at a position, if there is one.
fn mark(needed: &mut [bool], function: u32)
    ensures { needed.new ≡ slice_set needed.old function true }
{
    let function = function as usize;
    if function < needed.len() {
        needed[function] = true;
    }
}

/// Marks what an expression calls.
#[tactic(auto, using(crate::proofs::lemmas::Flags::marked_append))]
#[cycle(expression)]
fn mark_expr(needed: &mut [bool], e: &Expr)
    ensures { needed.new ≡ marked needed.old (expr_functions (expr_tree e.now)) }
{
    match e {
        Expr::Literal(_) => {}
        Expr::Neg(operand) => mark_expr(needed, operand),
        Expr::Read(_) => {}
        Expr::Binary(_, left, right) => {
            mark_expr(needed, left);
            mark_expr(needed, right);
        }
        Expr::Pick(test, on_true, on_false) => {
            mark_cond(needed, test);
            mark_expr(needed, on_true);
            mark_expr(needed, on_false);
        }
        Expr::Pure(function, values) => {
            mark(needed, *function);
            mark_exprs(needed, values.as_slice());
        }
        Expr::At(_, index) => mark_expr(needed, index),
    }
}

/// Marks what expressions call.
#[cycle(expression)]
fn mark_exprs(needed: &mut [bool], es: &[Expr])
    ensures { needed.new
        ≡ marked needed.old (exprs_functions (exprs_of_list (map expr_tree es.now))) }
{
    for e in es {
        mark_expr(needed, e);
    }
}

/// Marks what a condition calls.
#[tactic(auto, using(crate::proofs::lemmas::Flags::marked_append))]
#[cycle(expression)]
fn mark_cond(needed: &mut [bool], test: &Cond)
    ensures { needed.new ≡ marked needed.old (cond_functions (cond_tree test.now)) }
{
    match test {
        Cond::Compare(_, left, right) => {
            mark_expr(needed, left);
            mark_expr(needed, right);
        }
        Cond::Both(left, right) => {
            mark_cond(needed, left);
            mark_cond(needed, right);
        }
        Cond::Either(left, right) => {
            mark_cond(needed, left);
            mark_cond(needed, right);
        }
        Cond::Not(operand) => mark_cond(needed, operand),
    }
}

/// Marks what a statement calls.
#[tactic(auto, using(crate::proofs::lemmas::Flags::marked_append))]
#[cycle(statement)]
fn mark_stmt(needed: &mut [bool], s: &Stmt)
    ensures { needed.new ≡ marked needed.old (stmt_functions (stmt_tree s.now)) }
{
    match s {
        Stmt::Set { value, .. } => mark_expr(needed, value),
        Stmt::SetAt { index, value, .. } => {
            mark_expr(needed, index);
            mark_expr(needed, value);
        }
        Stmt::If { test, yes, no, .. } => {
            mark_cond(needed, test);
            mark_stmts(needed, yes);
            mark_stmts(needed, no);
        }
        Stmt::Call { values, .. } => mark_exprs(needed, values.as_slice()),
    }
}

/// Marks what statements call.
#[cycle(statement)]
fn mark_stmts(needed: &mut [bool], ss: &[Stmt])
    ensures { needed.new
        ≡ marked needed.old (stmts_functions (stmts_of_list (map stmt_tree ss.now))) }
{
    for s in ss {
        mark_stmt(needed, s);
    }
}

/// Marks what procedures call.
fn mark_procedures(needed: &mut [bool], procedures: &[Procedure])
    ensures { needed.new
        ≡ marked needed.old (procedures_functions (map procedure_tree procedures.now)) }
{
    for q in procedures {
        mark_stmts(needed, q.body.as_slice());
    }
}

/// Marks what the function at a position calls, if it is needed itself.
fn mark_behind(needed: &mut [bool], position: usize, f: &Pure)
    requires { position < length needed.old }
    ensures { MatchBool (flag_at needed.old position)
        (needed.new ≡ marked needed.old (expr_functions (expr_tree f.now.body)))
        (needed.new ≡ needed.old) }
{
    if needed[position] {
        mark_expr(needed, &f.body);
    }
}

/// Marks what needed functions call, from the last to the first: none calls itself or a later one.
fn mark_pures(needed: &mut [bool], pures: &[Pure])
    requires { length needed.old ≡ length pures.now }
    ensures { (later : List ℕ) → needed.old ≡ flags_of (length pures.now) later
        → needed.new ≡ flags_of (length pures.now) (needed_from later 0 (map pure_tree pures.now)) }
{
    for position in (0..pures.len()).rev() {
        mark_behind(needed, position, &pures[position]);
    }
}

/// By position which pure functions are needed, in time linear in the code.
pub(crate) fn needed(
    alloc: Global,
    pures: &[Pure],
    procedures: &[Procedure],
) -> Result<Vec<bool>, Memory>
    ensures { IfOk result (λ v. v.items ≡ needed_flags pures.now procedures.now) }
{
    let mut needed = vec![in alloc; false; pures.len()]?;
    mark_procedures(&mut needed, procedures);
    mark_pures(&mut needed, pures);
    Ok(needed)
}

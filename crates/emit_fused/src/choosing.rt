// An `if` and other statements.
ghost use Rattle.std.specs.Prelude.{◌≡◌, false, IfErr, IfOk, map};
ghost use Rattle.c_syntax.specs.Tree.{more_stmts, no_stmts};
ghost use Rattle.c_syntax.specs.Plain.{cond_tree, stmt_tree};
ghost use Rattle.emit_fused.specs.Turned as turned;
ghost use Rattle.emit_fused.specs.Turned.{standing};
ghost use Rattle.emit_fused.specs.Fusion.{choice_tree};
ghost use Rattle.emit_fused.specs.Fused as fused;

use crate::choice::Choice;
use crate::sameness::opposite;
use c_syntax::{Cond, Stmt};

/// An `if` by its parts, or a statement that is none.
pub(crate) fn choice_of(s: Stmt) -> Result<Choice, Stmt>
    ensures choice { IfOk result (λ c. stmt_tree s ≡ choice_tree c) }
    ensures other { IfErr result (λ t. t ≡ s) }
    ensures plain { IfErr result (λ t. turned.is_choice (stmt_tree s) ≡ false) }
{
    match s {
        Stmt::If {
            line,
            test,
            yes,
            no,
        } => Ok(Choice {
            line,
            test,
            yes,
            no,
        }),
        Stmt::Set { line, field, value } => Err(Stmt::Set { line, field, value }),
        Stmt::SetAt {
            line,
            field,
            index,
            value,
        } => Err(Stmt::SetAt {
            line,
            field,
            index,
            value,
        }),
        Stmt::Call {
            line,
            procedure,
            target,
            values,
        } => Err(Stmt::Call {
            line,
            procedure,
            target,
            values,
        }),
    }
}

/// An `if` as a statement.
pub(crate) fn statement(c: Choice) -> Stmt
    ensures { stmt_tree result ≡ choice_tree c }
{
    let Choice {
        line,
        test,
        yes,
        no,
    } = c;
    Stmt::If {
        line,
        test,
        yes,
        no,
    }
}

/// Whether a statement is an `if` by the opposite of a test, without an `else`.
fn decides(test: &Cond, s: &Stmt) -> bool
    ensures { result
        ≡ turned.is_decided (cond_tree test.now) (more_stmts (stmt_tree s.now) no_stmts) }
{
    match s {
        Stmt::If {
            test: other,
            no,
            ..
        } => no.as_slice().is_empty() && opposite(test, other),
        Stmt::Set { .. } => false,
        Stmt::SetAt { .. } => false,
        Stmt::Call { .. } => false,
    }
}

/// Whether statements are such an `if` alone.
fn is_decided(test: &Cond, ss: &[Stmt]) -> bool
    ensures { result ≡ turned.is_decided (cond_tree test.now) (standing ss.now) }
{
    if ss.len() != 1 {
        return false;
    }
    decides(test, &ss[0])
}

/// What an `if` does where its test holds, and of another statement these.
fn on_true_of(s: Stmt, others: Vec<Stmt>) -> Vec<Stmt>
    ensures { standing result.items ≡ turned.on_true_of (stmt_tree s) (standing others.items) }
{
    match choice_of(s) {
        Ok(choice) => choice.yes,
        Err(_) => others,
    }
}

/// What is done where a test fails, turned round: of an `if` by its opposite, only what that does.
pub(crate) fn where_fails(test: &Cond, mut ss: Vec<Stmt>) -> Vec<Stmt>
    ensures { turned.turned result.items
        ≡ fused.where_fails (cond_tree test.now) (turned.turned ss.items) }
{
    if !is_decided(test, ss.as_slice()) {
        return ss;
    }
    match ss.pop() {
        Some(only) => on_true_of(only, ss),
        None => ss,
    }
}

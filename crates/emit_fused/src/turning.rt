// Statements turned back, the first one first.
ghost use Rattle.std.specs.Prelude.{◌≡◌, IfOk};
ghost use Rattle.c_syntax.specs.Plain.{stmt_tree};
ghost use Rattle.emit_fused.specs.Turned as turned;
ghost use Rattle.emit_fused.specs.Turned.{standing};
ghost use Rattle.emit_fused.specs.Fusion as fusion;

use crate::choice::Choice;
use crate::choosing::{choice_of, statement};
use base_core::Memory;
use c_syntax::Stmt;
use std::alloc::Global;

/// A statement whose lists are turned round.
#[cycle(turning)]
fn turned_stmt(alloc: Global, s: Stmt) -> Result<Stmt, Memory>
    ensures { IfOk result (λ x. stmt_tree x ≡ turned.turned_stmt (stmt_tree s)) }
{
    match choice_of(s) {
        Ok(choice) => turned_choice(alloc, choice),
        Err(plain) => Ok(plain),
    }
}

/// An `if` whose lists are turned round.
#[cycle(turning)]
fn turned_choice(alloc: Global, choice: Choice) -> Result<Stmt, Memory>
    ensures { IfOk result (λ x. stmt_tree x ≡ fusion.turned_choice choice) }
{
    let Choice {
        line,
        test,
        yes,
        no,
    } = choice;
    let yes = turned_round(alloc, yes)?;
    let no = turned_round(alloc, no)?;
    Ok(statement(Choice {
        line,
        test,
        yes,
        no,
    }))
}

/// Statements turned round, at each depth.
#[cycle(turning)]
pub(crate) fn turned_round(alloc: Global, mut ss: Vec<Stmt>) -> Result<Vec<Stmt>, Memory>
    ensures { IfOk result (λ v. standing v.items ≡ turned.turned ss.items) }
{
    let mut list = Vec::new(alloc);
    while let Some(s) = ss.pop() {
        list.push(turned_stmt(alloc, s)?)?;
    }
    Ok(list)
}

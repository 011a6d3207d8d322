// Neighbouring `if`s as one, in lists that are turned round: the last statement first.
ghost use Rattle.std.specs.Prelude.{◌≡◌, ◌&&◌, IfOk, OnOk, map};
ghost use Rattle.c_syntax.specs.Tree.{branch, more_stmts};
ghost use Rattle.c_syntax.specs.Plain.{cond_tree, stmt_tree};
ghost use Rattle.emit_fused.specs.Kept as kept;
ghost use Rattle.emit_fused.specs.Kept.{keep_test};
ghost use Rattle.emit_fused.specs.Fused as fused;
ghost use Rattle.emit_fused.specs.Turned.{turned, turned_stmt};
ghost use Rattle.emit_fused.specs.Fusion.{fusion_of, relation_of, turned_choice};

use crate::choice::Choice;
use crate::choosing::{choice_of, statement};
use crate::fusion::Fusion;
use crate::keeping::stmts_keep;
use crate::reading::fields_of;
use crate::sameness::{is_not_of, same_cond};
use base_core::Memory;
use c_syntax::{Cond, Stmt};
use std::alloc::Global;

/// How two `if`s by these tests are one.
fn relation(test: &Cond, other: &Cond) -> Fusion
    ensures { result ≡ relation_of (cond_tree test.now) (cond_tree other.now) }
{
    if same_cond(test, other) {
        Fusion::Straight
    } else if is_not_of(other, test) {
        Fusion::Crossed
    } else if is_not_of(test, other) {
        Fusion::Turned
    } else {
        Fusion::Apart
    }
}

/// Whether the statements of two lists leave these fields.
#[tactic(auto, using(crate::proofs::TurnedLists::turned_keeps))]
fn both_keep(fields: &[u32], yes: &[Stmt], no: &[Stmt]) -> bool
    ensures { result
        ≡ (kept.stmts_keep fields.now (turned yes.now) && kept.stmts_keep fields.now (turned no.now)) }
{
    stmts_keep(fields, yes) && stmts_keep(fields, no)
}

/// Whether an `if` leaves what its test reads.
fn leaves_test(alloc: Global, first: &Choice) -> Result<bool, Memory>
    ensures { IfOk result (λ b. b ≡ keep_test (cond_tree first.now.test)
        (turned first.now.yes.items) (turned first.now.no.items)) }
{
    let fields = fields_of(alloc, &first.test)?;
    let leaves = both_keep(fields.as_slice(), first.yes.as_slice(), first.no.as_slice());
    Ok(leaves)
}

/// How two neighbours are one.
fn fusion(alloc: Global, first: &Choice, next: &Choice) -> Result<Fusion, Memory>
    ensures { IfOk result (λ f. f ≡ fusion_of first.now next.now) }
{
    let found = relation(&first.test, &next.test);
    if matches!(found, Fusion::Apart) {
        return Ok(Fusion::Apart);
    }
    if leaves_test(alloc, first)? {
        Ok(found)
    } else {
        Ok(Fusion::Apart)
    }
}

/// Adds a statement before those of a list.
#[cycle(joining)]
pub(crate) fn push_before(alloc: Global, list: &mut Vec<Stmt>, first: Stmt) -> Result<(), Memory>
    ensures { OnOk result (turned list.new.items
        ≡ fused.put_before (turned_stmt (stmt_tree first)) (turned list.old.items)) }
{
    match choice_of(first) {
        Ok(first) => push_choice(alloc, list, first),
        Err(first) => {
            list.push(first)?;
            Ok(())
        }
    }
}

/// Adds an `if` before the statements of a list.
#[cycle(joining)]
fn push_choice(alloc: Global, list: &mut Vec<Stmt>, first: Choice) -> Result<(), Memory>
    ensures { OnOk result (turned list.new.items
        ≡ fused.put_before (turned_choice first) (turned list.old.items)) }
{
    let Some(next) = list.pop() else {
        list.push(statement(first))?;
        return Ok(());
    };
    match choice_of(next) {
        Ok(next) => push_neighbours(alloc, list, first, next),
        Err(next) => {
            list.push(next)?;
            list.push(statement(first))?;
            Ok(())
        }
    }
}

/// Adds two neighbours before the statements of a list.
#[cycle(joining)]
fn push_neighbours(
    alloc: Global,
    list: &mut Vec<Stmt>,
    first: Choice,
    next: Choice,
) -> Result<(), Memory>
    ensures { OnOk result (turned list.new.items ≡ fused.put_before (turned_choice first)
        (more_stmts (turned_choice next) (turned list.old.items))) }
{
    match fusion(alloc, &first, &next)? {
        Fusion::Apart => {
            list.push(statement(next))?;
            list.push(statement(first))?;
        }
        Fusion::Straight => list.push(joined_choice(alloc, first, next.yes, next.no)?)?,
        Fusion::Crossed => list.push(joined_choice(alloc, first, next.no, next.yes)?)?,
        Fusion::Turned => {
            let turned = Choice {
                line: first.line,
                test: next.test,
                yes: first.no,
                no: first.yes,
            };
            list.push(joined_choice(alloc, turned, next.yes, next.no)?)?;
        }
    }
    Ok(())
}

/// An `if` with its statements before later ones, on both sides.
#[cycle(joining)]
fn joined_choice(
    alloc: Global,
    first: Choice,
    later_yes: Vec<Stmt>,
    later_no: Vec<Stmt>,
) -> Result<Stmt, Memory>
    ensures { IfOk result (λ s. turned_stmt (stmt_tree s) ≡ branch first.line (cond_tree first.test)
        (fused.joined (turned first.yes.items) (turned later_yes.items))
        (fused.joined (turned first.no.items) (turned later_no.items))) }
{
    let Choice {
        line,
        test,
        yes,
        no,
    } = first;
    let yes = joined(alloc, yes, later_yes)?;
    let no = joined(alloc, no, later_no)?;
    Ok(statement(Choice {
        line,
        test,
        yes,
        no,
    }))
}

/// Statements before others.
#[cycle(joining)]
fn joined(alloc: Global, first: Vec<Stmt>, later: Vec<Stmt>) -> Result<Vec<Stmt>, Memory>
    ensures { IfOk result (λ v. turned v.items
        ≡ fused.joined (turned first.items) (turned later.items)) }
{
    let mut list = later;
    let mut rest = first.into_iter();
    while let Some(s) = rest.next() {
        push_before(alloc, &mut list, s)?;
    }
    Ok(list)
}

// Statements.
ghost use Rattle.std.specs.Prelude.{◌≡◌, map};
ghost use Rattle.c_syntax.specs.Tree as tree;
ghost use Rattle.c_syntax.specs.Tree.{stmts_of_list};
ghost use Rattle.c_syntax.specs.Plain.{cond_tree, stmt_tree};
ghost use Rattle.c_grammar.specs.Written.{assign_at};
ghost use Rattle.c_grammar.specs.Parsing.{stmts_from};
ghost use Rattle.c_rules.specs.Resolve as rules;
ghost use Rattle.c_grammar.specs.WrittenTrees.{expr_of, stmt_of};
ghost use Rattle.c_rules.specs.Gives.{Gives};
ghost use Rattle.c_resolver.specs.Scopes.{names_of};
ghost use Rattle.c_resolver.specs.Choices.{resolve_second};

use crate::calls::{WrittenCall, resolve_call_of_procedure, resolve_item_store, resolve_store};
use crate::exprs::{resolve_boxed, resolve_boxed_cond, resolve_expr};
use crate::known::Scope;
use c_grammar::{ReadCFault, WrittenExpr, WrittenStmt};
use c_rules::on_line;
use c_syntax::{CType, Cond, Stmt};
use std::alloc::Global;

/// A choice.
fn choice(line: u32, test: Box<Cond>, yes: Vec<Stmt>, no: Vec<Stmt>) -> Stmt
    ensures { stmt_tree result
        ≡ tree.branch line (cond_tree test.value) (stmts_of_list (map stmt_tree yes.items))
        (stmts_of_list (map stmt_tree no.items)) }
{
    Stmt::If {
        line,
        test: Box::into_inner(test),
        yes,
        no,
    }
}

/// A store in an item of an array field, as it is written on a line.
#[derive(Drop)]
struct WrittenItemStore<'s, 'a> {
    line: u32,
    field: &'s [u8],
    index: &'s WrittenExpr<'a>,
    cast: CType,
    value: &'s WrittenExpr<'a>,
}

/// What a store in an item of an array stands for.
fn resolve_set_at(
    alloc: Global,
    scope: &Scope,
    written: &WrittenItemStore,
) -> Result<Stmt, ReadCFault>
    ensures { Gives stmt_tree result (rules.resolve_stmt (names_of scope.now)
        (assign_at written.now.line written.now.field.now (expr_of written.now.index.now)
        written.now.cast (expr_of written.now.value.now))) }
{
    let line = written.line;
    let field = on_line(line, resolve_item_store(scope, written.field, written.cast))?;
    let index = resolve_boxed(alloc, scope, written.index)?;
    let value = resolve_expr(alloc, scope, written.value)?;
    Ok(Stmt::SetAt {
        line,
        field,
        index: Box::into_inner(index),
        value,
    })
}

/// What a statement stands for.
#[cycle(statement)]
fn resolve_stmt(alloc: Global, scope: &Scope, s: &WrittenStmt) -> Result<Stmt, ReadCFault>
    ensures { Gives stmt_tree result (rules.resolve_stmt (names_of scope.now) (stmt_of s.now)) }
{
    match s {
        WrittenStmt::Set {
            line,
            field,
            cast,
            value,
        } => {
            let field = on_line(*line, resolve_store(scope, field, *cast))?;
            let value = resolve_expr(alloc, scope, value)?;
            Ok(Stmt::Set {
                line: *line,
                field,
                value,
            })
        }
        WrittenStmt::SetAt {
            line,
            field,
            index,
            cast,
            value,
        } => {
            let written = WrittenItemStore {
                line: *line,
                field,
                index,
                cast: *cast,
                value,
            };
            resolve_set_at(alloc, scope, &written)
        }
        WrittenStmt::If {
            line,
            test,
            yes,
            has_else,
            no,
        } => {
            let test = resolve_boxed_cond(alloc, scope, test)?;
            let on_true = resolve_stmts(alloc, scope, yes)?;
            let on_false = resolve_else(alloc, scope, *has_else, no)?;
            Ok(choice(*line, test, on_true, on_false))
        }
        WrittenStmt::Call {
            line,
            procedure,
            target,
            values,
        } => {
            let written = WrittenCall {
                line: *line,
                name: procedure,
                target: *target,
                values: values.as_slice(),
            };
            resolve_call_of_procedure(alloc, scope, &written)
        }
    }
}

/// What the second block of a choice stands for, where it is written.
#[cycle(statement)]
fn resolve_else(
    alloc: Global,
    scope: &Scope,
    has_else: bool,
    no: &[WrittenStmt],
) -> Result<Vec<Stmt>, ReadCFault>
    ensures { Gives (λ v. stmts_of_list (map stmt_tree v.items)) result
        (resolve_second (names_of scope.now) has_else (stmts_from (map stmt_of no.now))) }
{
    if has_else {
        resolve_stmts(alloc, scope, no)
    } else {
        Ok(Vec::new(alloc))
    }
}

/// What statements stand for.
#[cycle(statement)]
pub(crate) fn resolve_stmts(
    alloc: Global,
    scope: &Scope,
    ss: &[WrittenStmt],
) -> Result<Vec<Stmt>, ReadCFault>
    ensures { Gives (λ v. stmts_of_list (map stmt_tree v.items)) result
        (rules.resolve_stmts (names_of scope.now) (stmts_from (map stmt_of ss.now))) }
{
    let mut resolved = Vec::new(alloc);
    for s in ss {
        resolved.push(resolve_stmt(alloc, scope, s)?)?;
    }
    Ok(resolved)
}

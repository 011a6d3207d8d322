// Expressions.
ghost use Rattle.std.specs.Prelude.{◌≡◌, map};
ghost use Rattle.c_rules.specs.Gives.{Gives};
ghost use Rattle.lustre_syntax.specs.Plain.{expr_tree};
ghost use Rattle.lustre_syntax.specs.Tree.{texts_of};
ghost use Rattle.lustre_grammar.specs.WrittenTrees.{word_of, expr_of};
ghost use Rattle.lustre_rules.specs.Resolve as rules;
ghost use Rattle.lustre_resolver.specs.Scopes.{names_of};

use crate::known::Names;
use c_rules::on_line;
use c_syntax::{CFault, CKind};
use lustre_grammar::{LusWord, LusWrittenExpr, ReadLusFault};
use lustre_syntax::LusExpr;
use std::alloc::Global;

/// The position of a name that is read.
fn resolve_word(names: &Names, word: LusWord) -> Result<u32, CFault>
    ensures { result ≡ rules.resolve_word (texts_of (names_of names.now)) (word_of word.entry) }
{
    on_line(
        word.line,
        match names.position(word.text) {
            Some(place) => Ok(place),
            None => Err(CKind::Name),
        },
    )
}

/// What an expression stands for.
#[cycle(expression)]
pub(crate) fn resolve_expr(
    alloc: Global,
    names: &Names,
    e: &LusWrittenExpr,
) -> Result<LusExpr, ReadLusFault>
    ensures { Gives expr_tree result
        (rules.resolve_expr (texts_of (names_of names.now)) (expr_of e.now)) }
{
    match e {
        LusWrittenExpr::Number(number) => Ok(LusExpr::Number(number.value as i64)),
        LusWrittenExpr::Truth(value) => Ok(LusExpr::Truth(*value)),
        LusWrittenExpr::Name(word) => Ok(LusExpr::Name(resolve_word(names, *word)?)),
        LusWrittenExpr::Neg(operand) => {
            let operand = resolve_boxed(alloc, names, operand)?;
            Ok(LusExpr::Neg(operand))
        }
        LusWrittenExpr::Not(operand) => {
            let operand = resolve_boxed(alloc, names, operand)?;
            Ok(LusExpr::Not(operand))
        }
        LusWrittenExpr::Two(op, left, right) => {
            let left = resolve_boxed(alloc, names, left)?;
            let right = resolve_boxed(alloc, names, right)?;
            Ok(LusExpr::Two(*op, left, right))
        }
        LusWrittenExpr::If(test, on_true, on_false) => {
            let test = resolve_boxed(alloc, names, test)?;
            let on_true = resolve_boxed(alloc, names, on_true)?;
            let on_false = resolve_boxed(alloc, names, on_false)?;
            Ok(LusExpr::If(test, on_true, on_false))
        }
        LusWrittenExpr::Arrow(first, later) => {
            let first = resolve_boxed(alloc, names, first)?;
            let later = resolve_boxed(alloc, names, later)?;
            Ok(LusExpr::Arrow(first, later))
        }
        LusWrittenExpr::Pre(word) => Ok(LusExpr::Pre(resolve_word(names, *word)?)),
    }
}

/// The same in a box.
#[cycle(expression)]
fn resolve_boxed(
    alloc: Global,
    names: &Names,
    e: &LusWrittenExpr,
) -> Result<Box<LusExpr>, ReadLusFault>
    ensures { Gives (λ b. expr_tree b.value) result
        (rules.resolve_expr (texts_of (names_of names.now)) (expr_of e.now)) }
{
    let e = resolve_expr(alloc, names, e)?;
    Ok(Box::new(alloc, e)?)
}

/// What expressions stand for.
pub(crate) fn resolve_exprs(
    alloc: Global,
    names: &Names,
    es: &[LusWrittenExpr],
) -> Result<Vec<LusExpr>, ReadLusFault>
    ensures { Gives (λ v. map expr_tree v.items) result
        (rules.resolve_exprs (texts_of (names_of names.now)) (map expr_of es.now)) }
{
    let mut resolved = Vec::new(alloc);
    for e in es {
        resolved.push(resolve_expr(alloc, names, e)?)?;
    }
    Ok(resolved)
}

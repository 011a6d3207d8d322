// Stores and calls of procedures.
ghost use Rattle.std.specs.Prelude.{◌≡◌, map, codes, bytes_eq, length, suc};
ghost use Rattle.c_grammar.specs.Parsing as parsing;
ghost use Rattle.c_expressions.specs.Gives.{Gives, GivesMore, read_as, behind};
ghost use Rattle.c_expressions.specs.Limited.{limits_of};
ghost use Rattle.c_grammar.specs.WrittenTrees.{target_of, argument_of, stmt_of};

use crate::build;
use c_expressions::{Parse, Read, Reader, syntax_on};
use c_grammar::{Argument, Comma, TargetOpener, WrittenStmt, WrittenTarget};
use c_tokens::{Token, Tokens, comma_of, is, lists_continue, target_opener_of};

fn target_from<'a>(
    reader: Reader,
    token: &Token<'a>,
    tokens: Tokens<'a>,
    opener: TargetOpener,
) -> Read<'a, WrittenTarget<'a>>
    ensures { read_as target_of result
        ≡ parsing.parse_target_from reader.last token.now tokens.entry opener }
{
    match opener {
        TargetOpener::Own => Ok((WrittenTarget::Own, tokens)),
        TargetOpener::Field => {
            let rest = reader.word(&tokens, b"s")?;
            let (field, rest) = reader.field_name(&rest)?;
            Ok((WrittenTarget::Field(field), rest))
        }
        TargetOpener::Nothing => Err(syntax_on(token.line)),
    }
}

fn target<'a>(reader: Reader, tokens: &Tokens<'a>) -> Read<'a, WrittenTarget<'a>>
    ensures { read_as target_of result ≡ parsing.parse_target reader.last tokens.now }
{
    let (token, rest) = reader.next(tokens)?;
    target_from(reader, &token, rest, target_opener_of(token.text))
}

fn arguments_step<'a>(reader: Reader, tokens: &Tokens<'a>) -> Parse<'a, Option<Argument<'a>>>
    ensures { GivesMore argument_of result
        (parsing.arguments_step reader.last (limits_of reader.limits) 0 tokens.now) }
{
    let (token, rest) = reader.next(tokens)?;
    match comma_of(token.text) {
        Comma::Another => {
            let (cast, rest) = reader.cast(&rest)?;
            let (value, rest) = reader.value(reader.limits.exprs, &rest)?;
            let argument = Argument {
                cast,
                value: Box::into_inner(value),
            };
            Ok((Some(argument), rest))
        }
        Comma::Closed => Ok((None, rest)),
        Comma::Nothing => Err(syntax_on(token.line).into()),
    }
}

fn arguments<'a>(reader: Reader, tokens: Tokens<'a>) -> Parse<'a, Vec<Argument<'a>>>
    ensures { Gives (λ v. map argument_of v.items) result
        (parsing.many (parsing.arguments_step reader.last (limits_of reader.limits))
        (suc (length tokens.entry)) 0 tokens.entry) }
{
    lists_continue();
    let mut arguments = Vec::new(reader.alloc);
    let mut rest = tokens;
    loop {
        let (argument, later) = arguments_step(reader, &rest)?;
        let Some(argument) = argument else {
            return Ok((arguments, later));
        };
        arguments.push(argument)?;
        rest = later;
    }
}

// What is stored, from the `=` to the `;`.
fn stored<'a>(reader: Reader, tokens: &Tokens<'a>) -> Parse<'a, Argument<'a>>
    ensures { Gives argument_of result
        (parsing.parse_stored reader.last (limits_of reader.limits) tokens.now) }
{
    let rest = reader.word(tokens, b"=")?;
    let (cast, rest) = reader.cast(&rest)?;
    let (value, rest) = reader.value(reader.limits.exprs, &rest)?;
    let rest = reader.word(&rest, b";")?;
    let stored = Argument {
        cast,
        value: Box::into_inner(value),
    };
    Ok((stored, rest))
}

// A store after the name of its field: in the field, or in an item of it.
fn store_in<'a>(
    reader: Reader,
    token: &Token<'a>,
    field: &'a [u8],
    tokens: Tokens<'a>,
) -> Parse<'a, WrittenStmt<'a>>
    ensures { Gives stmt_of result
        (parsing.parse_store_in reader.last (limits_of reader.limits) token.now field.now
        tokens.entry (bytes_eq (parsing.first_text tokens.entry) (codes "["))) }
{
    if !is(tokens.first_text(), b"[") {
        let (stored, rest) = stored(reader, &tokens)?;
        return Ok((build::store(token.line, field, stored), rest));
    }
    let (index, rest) = reader.index(reader.limits.exprs, &tokens)?;
    let (stored, rest) = stored(reader, &rest)?;
    Ok((build::store_at(token.line, field, index, stored), rest))
}

/// A store after its `s`.
pub(crate) fn store<'a>(
    reader: Reader,
    token: &Token<'a>,
    tokens: &Tokens<'a>,
) -> Parse<'a, WrittenStmt<'a>>
    ensures { Gives stmt_of result
        (parsing.parse_store reader.last (limits_of reader.limits) token.now tokens.now) }
{
    let (field, rest) = reader.field_name(tokens)?;
    store_in(reader, token, field, rest)
}

/// A call after the procedure's name.
pub(crate) fn call<'a>(
    reader: Reader,
    token: &Token<'a>,
    tokens: &Tokens<'a>,
) -> Parse<'a, WrittenStmt<'a>>
    ensures { Gives stmt_of result
        (parsing.parse_call reader.last (limits_of reader.limits) token.now tokens.now) }
{
    let rest = reader.word(tokens, b"(")?;
    let (target, rest) = target(reader, &rest)?;
    let (values, rest) = arguments(reader, rest)?;
    let rest = reader.word(&rest, b";")?;
    let call = WrittenStmt::Call {
        line: token.line,
        procedure: token.text,
        target,
        values,
    };
    Ok((call, rest))
}

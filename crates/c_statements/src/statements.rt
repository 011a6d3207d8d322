// Statements by recursive descent, at most so many levels deep.
ghost use Rattle.std.specs.Prelude.{◌≡◌, map, codes, bytes_eq, length, suc};
ghost use Rattle.c_grammar.specs.Parsing as parsing;
ghost use Rattle.c_expressions.specs.Gives.{Gives, GivesMore, behind};
ghost use Rattle.c_expressions.specs.Limited.{limits_of};
ghost use Rattle.c_expressions.specs.Operands.{boxed_cond};
ghost use Rattle.c_grammar.specs.WrittenTrees.{stmt_of};

use crate::build;
use crate::calls::{call, store};
use c_expressions::{Parse, Reader, deep_on, syntax_on};
use c_grammar::{StmtOpener, WrittenCond, WrittenStmt};
use c_tokens::{Token, Tokens, is, lists_continue, stmt_opener_of};

fn statement_too_deep<'a>(
    reader: Reader,
    token: &Token<'a>,
    opener: StmtOpener,
) -> Parse<'a, WrittenStmt<'a>>
    ensures { Gives stmt_of result
        (parsing.stmt_too_deep reader.last (limits_of reader.limits) token.now opener) }
{
    match opener {
        StmtOpener::Store | StmtOpener::If | StmtOpener::Call => Err(deep_on(token.line).into()),
        StmtOpener::Nothing => Err(syntax_on(token.line).into()),
    }
}

#[cycle(statements)]
fn statement<'a>(reader: Reader, levels: u32, tokens: &Tokens<'a>) -> Parse<'a, WrittenStmt<'a>>
    ensures { Gives stmt_of result
        (parsing.parse_stmt reader.last (limits_of reader.limits) levels tokens.now) }
{
    let (token, rest) = reader.next(tokens)?;
    let opener = stmt_opener_of(token.text);
    if levels == 0 {
        return statement_too_deep(reader, &token, opener);
    }
    statement_from(reader, levels - 1, &token, &rest, opener)
}

#[cycle(statements)]
fn statement_from<'a>(
    reader: Reader,
    levels: u32,
    token: &Token<'a>,
    tokens: &Tokens<'a>,
    opener: StmtOpener,
) -> Parse<'a, WrittenStmt<'a>>
    ensures { Gives stmt_of result
        (parsing.parse_stmt_opened reader.last (limits_of reader.limits)
        (parsing.parse_stmt reader.last (limits_of reader.limits) levels)
        token.now tokens.now opener) }
{
    match opener {
        StmtOpener::Store => store(reader, token, tokens),
        StmtOpener::If => choice(reader, levels, token, tokens),
        StmtOpener::Call => call(reader, token, tokens),
        StmtOpener::Nothing => Err(syntax_on(token.line).into()),
    }
}

#[cycle(statements)]
fn statements_step<'a>(
    reader: Reader,
    levels: u32,
    tokens: &Tokens<'a>,
) -> Parse<'a, Option<WrittenStmt<'a>>>
    ensures { GivesMore stmt_of result
        (parsing.stmts_step reader.last (limits_of reader.limits)
        (parsing.parse_stmt reader.last (limits_of reader.limits) levels) 0 tokens.now) }
{
    if is(tokens.first_text(), b"}") {
        let (_, rest) = reader.next(tokens)?;
        return Ok((None, rest));
    }
    let (statement, rest) = statement(reader, levels, tokens)?;
    Ok((Some(statement), rest))
}

#[cycle(statements)]
fn statements<'a>(
    reader: Reader,
    levels: u32,
    tokens: Tokens<'a>,
) -> Parse<'a, Vec<WrittenStmt<'a>>>
    ensures { Gives (λ v. map stmt_of v.items) result
        (parsing.many
        (parsing.stmts_step reader.last (limits_of reader.limits)
        (parsing.parse_stmt reader.last (limits_of reader.limits) levels))
        (suc (length tokens.entry)) 0 tokens.entry) }
{
    lists_continue();
    let mut statements = Vec::new(reader.alloc);
    let mut rest = tokens;
    loop {
        let (statement, later) = statements_step(reader, levels, &rest)?;
        let Some(statement) = statement else {
            return Ok((statements, later));
        };
        statements.push(statement)?;
        rest = later;
    }
}

/// A block, in which so many more levels may be opened.
#[cycle(statements)]
pub fn block<'a>(
    reader: Reader,
    levels: u32,
    tokens: &Tokens<'a>,
) -> Parse<'a, Vec<WrittenStmt<'a>>>
    ensures { Gives (λ v. parsing.stmts_from (map stmt_of v.items)) result
        (parsing.parse_block reader.last (limits_of reader.limits)
        (parsing.parse_stmt reader.last (limits_of reader.limits) levels) tokens.now) }
{
    let rest = reader.word(tokens, b"{")?;
    statements(reader, levels, rest)
}

/// A choice up to its first block: the token that opens it, what it tests, and that block.
#[derive(Drop)]
struct OpenChoice<'t, 'a> {
    token: &'t Token<'a>,
    test: Box<WrittenCond<'a>>,
    yes: Vec<WrittenStmt<'a>>,
}

// The rest of a choice after its first block.
#[cycle(statements)]
fn second<'a>(
    reader: Reader,
    levels: u32,
    begun: OpenChoice<'_, 'a>,
    tokens: Tokens<'a>,
) -> Parse<'a, WrittenStmt<'a>>
    ensures { Gives stmt_of result
        (parsing.parse_second reader.last (limits_of reader.limits)
        (parsing.parse_stmt reader.last (limits_of reader.limits) levels)
        begun.entry.token.now (boxed_cond begun.entry.test)
        (parsing.stmts_from (map stmt_of begun.entry.yes.items))
        tokens.entry
        (bytes_eq (parsing.first_text tokens.entry) (codes "else"))) }
{
    let OpenChoice { token, test, yes } = begun;
    if !is(tokens.first_text(), b"else") {
        let no = Vec::new(reader.alloc);
        return Ok((build::choice(token.line, test, yes, false, no), tokens));
    }
    let (_, rest) = reader.next(&tokens)?;
    let (no, rest) = block(reader, levels, &rest)?;
    Ok((build::choice(token.line, test, yes, true, no), rest))
}

#[cycle(statements)]
fn choice<'a>(
    reader: Reader,
    levels: u32,
    token: &Token<'a>,
    tokens: &Tokens<'a>,
) -> Parse<'a, WrittenStmt<'a>>
    ensures { Gives stmt_of result
        (parsing.parse_if reader.last (limits_of reader.limits)
        (parsing.parse_stmt reader.last (limits_of reader.limits) levels) token.now tokens.now) }
{
    let (test, rest) = reader.test(reader.limits.exprs, tokens)?;
    let (yes, rest) = block(reader, levels, &rest)?;
    second(reader, levels, OpenChoice { token, test, yes }, rest)
}

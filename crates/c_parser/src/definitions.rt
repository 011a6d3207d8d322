// Pure functions and procedures.
ghost use Rattle.std.specs.Prelude.{◌≡◌, map, codes};
ghost use Rattle.c_grammar.specs.Parsing as parsing;
ghost use Rattle.c_expressions.specs.Gives.{Gives, read_as};
ghost use Rattle.c_expressions.specs.Limited.{limits_of};
ghost use Rattle.c_parser.specs.Parts as parts;
ghost use Rattle.c_grammar.specs.WrittenTrees.{pure_of, procedure_of};

use crate::params::{params, pure_params};
use c_expressions::{Parse, Read, Reader, syntax_on};
use c_grammar::{Definition, WrittenExpr, WrittenProcedure, WrittenPure};
use c_statements::block;
use c_tokens::{Token, Tokens, is};

// What a pure function returns, with the line of its `return`, up to the `}`.
fn returned<'a>(reader: Reader, tokens: &Tokens<'a>) -> Parse<'a, (u32, WrittenExpr<'a>)>
    ensures { Gives parts.returned_of result
        (parts.returned reader.last (limits_of reader.limits) tokens.now) }
{
    let (token, rest) = reader.next(tokens)?;
    if !is(token.text, b"return") {
        return Err(syntax_on(token.line).into());
    }
    let (value, rest) = reader.value(reader.limits.exprs, &rest)?;
    let rest = reader.word(&rest, b";")?;
    let rest = reader.word(&rest, b"}")?;
    Ok(((token.line, Box::into_inner(value)), rest))
}

fn pure_of_parts<'a>(
    reader: Reader,
    token: &Token<'a>,
    tokens: &Tokens<'a>,
) -> Parse<'a, WrittenPure<'a>>
    ensures { Gives pure_of result
        (parts.pure_parts reader.last (limits_of reader.limits) token.now tokens.now) }
{
    let rest = reader.word(tokens, b"int64_t")?;
    let (name, rest) = reader.name(&rest)?;
    let rest = reader.word(&rest, b"(")?;
    let (params, rest) = pure_params(reader, &rest)?;
    let rest = reader.word(&rest, b"{")?;
    let (returned, rest) = returned(reader, &rest)?;
    let (return_line, body) = returned;
    let pure = WrittenPure {
        line: token.line,
        name,
        params,
        return_line,
        body,
    };
    Ok((pure, rest))
}

/// A pure function after its `static`.
pub(crate) fn pure<'a>(
    reader: Reader,
    token: &Token<'a>,
    tokens: &Tokens<'a>,
) -> Parse<'a, WrittenPure<'a>>
    ensures { Gives pure_of result
        (parsing.parse_pure reader.last (limits_of reader.limits) token.now tokens.now) }
{
    pure_of_parts(reader, token, tokens)
}

// The struct of a procedure, after the `(`.
fn instance<'a>(reader: Reader, tokens: &Tokens<'a>) -> Read<'a, &'a [u8]>
    ensures { read_as (λ name. name.now) result ≡ parts.instance reader.last tokens.now }
{
    let rest = reader.word(tokens, b"struct")?;
    let (of, rest) = reader.name(&rest)?;
    let rest = reader.word(&rest, b"*")?;
    let rest = reader.word(&rest, b"s")?;
    Ok((of, rest))
}

fn procedure_of_parts<'a>(
    reader: Reader,
    line: u32,
    private: bool,
    tokens: &Tokens<'a>,
) -> Parse<'a, WrittenProcedure<'a>>
    ensures { Gives procedure_of result
        (parts.procedure_parts reader.last (limits_of reader.limits) line private tokens.now) }
{
    let (name, rest) = reader.name(tokens)?;
    let rest = reader.word(&rest, b"(")?;
    let (of, rest) = instance(reader, &rest)?;
    let (params, rest) = params(reader, rest)?;
    let (body, rest) = block(reader, reader.limits.stmts, &rest)?;
    let procedure = WrittenProcedure {
        line,
        private,
        name,
        of,
        params,
        body,
    };
    Ok((procedure, rest))
}

// A procedure after its `void`.
fn procedure_behind<'a>(
    reader: Reader,
    line: u32,
    private: bool,
    tokens: &Tokens<'a>,
) -> Parse<'a, WrittenProcedure<'a>>
    ensures { Gives procedure_of result
        (parsing.parse_procedure_behind reader.last (limits_of reader.limits) line private
        tokens.now) }
{
    procedure_of_parts(reader, line, private, tokens)
}

/// A definition that is a procedure.
pub(crate) fn procedure<'a>(
    reader: Reader,
    token: &Token<'a>,
    tokens: &Tokens<'a>,
    definition: Definition,
) -> Parse<'a, WrittenProcedure<'a>>
    ensures { Gives procedure_of result
        (parsing.parse_procedure reader.last (limits_of reader.limits) token.now tokens.now
        definition) }
{
    match definition {
        Definition::Static => {
            let rest = reader.word(tokens, b"void")?;
            procedure_behind(reader, token.line, true, &rest)
        }
        Definition::Void => procedure_behind(reader, token.line, false, tokens),
        Definition::Struct | Definition::Nothing => Err(syntax_on(token.line).into()),
    }
}

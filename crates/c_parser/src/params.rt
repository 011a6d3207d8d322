// The parameters of pure functions and of procedures.
ghost use Rattle.std.specs.Prelude.{◌≡◌, ◌+◌, map, length, suc, nat_le, vec_len};
ghost use Rattle.c_grammar.specs.Parsing as parsing;
ghost use Rattle.c_expressions.specs.Gives.{Gives, GivesMore, behind};
ghost use Rattle.c_expressions.specs.Limited.{limits_of};
ghost use Rattle.c_parser.specs.Parts as parts;
ghost use Rattle.c_grammar.specs.WrittenTrees.{param_of, pure_param_of};

use c_expressions::{Parse, Reader, deep_on, syntax_on};
use c_grammar::{Comma, WrittenParam, WrittenPureParam};
use c_tokens::{Tokens, comma_of, is, lists_continue, type_of_text};

/// Whether one more is allowed where at most so many are.
pub(crate) fn has_room(count: usize, most: usize) -> bool
    ensures { result ≡ nat_le (count + 1) most }
{
    count < most
}

fn pure_param<'a>(
    reader: Reader,
    count: usize,
    tokens: &Tokens<'a>,
) -> Parse<'a, WrittenPureParam<'a>>
    ensures { Gives pure_param_of result
        (parsing.parse_pure_param reader.last (limits_of reader.limits) count tokens.now) }
{
    let (token, rest) = reader.next(tokens)?;
    if !is(token.text, b"int64_t") {
        return Err(syntax_on(token.line).into());
    }
    if !has_room(count, reader.limits.params) {
        return Err(deep_on(token.line).into());
    }
    let (name, rest) = reader.name(&rest)?;
    let param = WrittenPureParam {
        line: token.line,
        name,
    };
    Ok((param, rest))
}

fn pure_params_step<'a>(
    reader: Reader,
    count: usize,
    tokens: &Tokens<'a>,
) -> Parse<'a, Option<WrittenPureParam<'a>>>
    ensures { GivesMore pure_param_of result
        (parsing.pure_params_step reader.last (limits_of reader.limits) count tokens.now) }
{
    let (token, rest) = reader.next(tokens)?;
    match comma_of(token.text) {
        Comma::Another => {
            let (param, rest) = pure_param(reader, count, &rest)?;
            Ok((Some(param), rest))
        }
        Comma::Closed => Ok((None, rest)),
        Comma::Nothing => Err(syntax_on(token.line).into()),
    }
}

fn later_pure_params<'a>(
    reader: Reader,
    params: Vec<WrittenPureParam<'a>>,
    tokens: Tokens<'a>,
) -> Parse<'a, Vec<WrittenPureParam<'a>>>
    ensures { Gives (λ v. map pure_param_of v.items) result
        (behind (map pure_param_of params.entry.items)
        (parsing.many (parsing.pure_params_step reader.last (limits_of reader.limits))
        (suc (length tokens.entry)) (vec_len params.entry) tokens.entry)) }
{
    lists_continue();
    let mut params = params;
    let mut rest = tokens;
    loop {
        let (param, later) = pure_params_step(reader, params.len(), &rest)?;
        let Some(param) = param else {
            return Ok((params, later));
        };
        params.push(param)?;
        rest = later;
    }
}

/// The parameters of a pure function after its `(`, and the `)`.
pub(crate) fn pure_params<'a>(
    reader: Reader,
    tokens: &Tokens<'a>,
) -> Parse<'a, Vec<WrittenPureParam<'a>>>
    ensures { Gives (λ v. map pure_param_of v.items) result
        (parts.pure_params reader.last (limits_of reader.limits) tokens.now) }
{
    let (first, rest) = pure_param(reader, 0, tokens)?;
    let mut params = Vec::new(reader.alloc);
    params.push(first)?;
    later_pure_params(reader, params, rest)
}

fn param<'a>(reader: Reader, count: usize, tokens: &Tokens<'a>) -> Parse<'a, WrittenParam<'a>>
    ensures { Gives param_of result
        (parsing.parse_param reader.last (limits_of reader.limits) count tokens.now) }
{
    let (token, rest) = reader.next(tokens)?;
    let Some(ty) = type_of_text(token.text) else {
        return Err(syntax_on(token.line).into());
    };
    if !has_room(count, reader.limits.params) {
        return Err(deep_on(token.line).into());
    }
    let (name, rest) = reader.name(&rest)?;
    let param = WrittenParam {
        line: token.line,
        ty,
        name,
    };
    Ok((param, rest))
}

fn params_step<'a>(
    reader: Reader,
    count: usize,
    tokens: &Tokens<'a>,
) -> Parse<'a, Option<WrittenParam<'a>>>
    ensures { GivesMore param_of result
        (parsing.params_step reader.last (limits_of reader.limits) count tokens.now) }
{
    let (token, rest) = reader.next(tokens)?;
    match comma_of(token.text) {
        Comma::Another => {
            let (param, rest) = param(reader, count, &rest)?;
            Ok((Some(param), rest))
        }
        Comma::Closed => Ok((None, rest)),
        Comma::Nothing => Err(syntax_on(token.line).into()),
    }
}

/// The parameters of a procedure after its instance, and the `)`.
pub(crate) fn params<'a>(reader: Reader, tokens: Tokens<'a>) -> Parse<'a, Vec<WrittenParam<'a>>>
    ensures { Gives (λ v. map param_of v.items) result
        (parsing.many (parsing.params_step reader.last (limits_of reader.limits))
        (suc (length tokens.entry)) 0 tokens.entry) }
{
    lists_continue();
    let mut params = Vec::new(reader.alloc);
    let mut rest = tokens;
    loop {
        let (param, later) = params_step(reader, params.len(), &rest)?;
        let Some(param) = param else {
            return Ok((params, later));
        };
        params.push(param)?;
        rest = later;
    }
}

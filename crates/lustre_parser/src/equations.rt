// Equations.
ghost use Rattle.std.specs.Prelude.{◌≡◌, Some, map, codes, bytes_eq};
ghost use Rattle.c_expressions.specs.Gives.{Gives};
ghost use Rattle.lustre_grammar.specs.Parsing as parsing;
ghost use Rattle.lustre_grammar.specs.WrittenTrees.{equation_of};

use crate::forms::Form;
use crate::lists::{Element, list};
use crate::reader::{Parse, Reader};
use c_expressions::syntax_on;
use c_tokens::{Token, is};
use lustre_grammar::LusWrittenEq;
use lustre_tokens::{Tokens, is_lustre_name};

impl<'a> Element<'a> for &'a [u8] {
    ghost use Rattle.std.specs.Prelude.{ℕ, List};
    ghost use Rattle.lustre_grammar.proofs.lemmas.Continuing.{given-takes_tokens};

    ghost Written = { List ℕ };

    ghost written = { λ text. text.now };

    ghost parse = { parsing.parse_given };

    ghost takes = { given-takes_tokens };

    fn read(reader: Reader, tokens: &Tokens<'a>) -> Parse<'a, &'a [u8]> {
        let (word, rest) = reader.name(tokens)?;
        Ok((word.text, rest))
    }
}

/// A call of a node after the word `call`.
fn callee<'a>(
    reader: Reader,
    line: u32,
    given: Vec<&'a [u8]>,
    tokens: &Tokens<'a>,
) -> Parse<'a, LusWrittenEq<'a>>
    ensures { Gives equation_of result
        (parsing.parse_callee reader.last line (map (λ text. text.now) given.entry.items)
        tokens.now) }
{
    let (callee, rest) = reader.name(tokens)?;
    let rest = reader.word(&rest, b"(")?;
    let (values, rest) = list(reader, Form::Arguments, rest)?;
    let rest = reader.word(&rest, b";")?;
    let call = LusWrittenEq::Call {
        line,
        given,
        callee: callee.text,
        values,
    };
    Ok((call, rest))
}

/// A call after the `=`.
fn call<'a>(
    reader: Reader,
    line: u32,
    given: Vec<&'a [u8]>,
    tokens: &Tokens<'a>,
) -> Parse<'a, LusWrittenEq<'a>>
    ensures { Gives equation_of result
        (parsing.parse_call reader.last line (map (λ text. text.now) given.entry.items)
        tokens.now) }
{
    let rest = reader.word(tokens, b"call")?;
    callee(reader, line, given, &rest)
}

/// What one name is given after the `=`, where that is no call.
fn set<'a>(
    reader: Reader,
    line: u32,
    given: &'a [u8],
    tokens: &Tokens<'a>,
) -> Parse<'a, LusWrittenEq<'a>>
    ensures { Gives equation_of result
        (parsing.parse_set reader.last line given.now tokens.now) }
{
    let (value, rest) = reader.value(tokens)?;
    let rest = reader.word(&rest, b";")?;
    Ok((LusWrittenEq::Set { line, given, value }, rest))
}

/// What one name is given after the `=`.
fn right_of_one<'a>(
    reader: Reader,
    line: u32,
    given: &'a [u8],
    tokens: &Tokens<'a>,
) -> Parse<'a, LusWrittenEq<'a>>
    ensures { Gives equation_of result
        (parsing.parse_right_by reader.last line given.now tokens.now
        (parsing.is_closed (Some (codes "call")) tokens.now)) }
{
    if !tokens.starts_with(b"call") {
        return set(reader, line, given, tokens);
    }
    let mut names = Vec::new(reader.alloc);
    names.push(given)?;
    call(reader, line, names, tokens)
}

/// What names are given after the `=`.
fn right<'a>(
    reader: Reader,
    line: u32,
    first: &'a [u8],
    others: Vec<&'a [u8]>,
    tokens: &Tokens<'a>,
) -> Parse<'a, LusWrittenEq<'a>>
    ensures { Gives equation_of result
        (parsing.parse_right reader.last line first.now
        (map (λ text. text.now) others.entry.items) tokens.now) }
{
    if others.is_empty() {
        return right_of_one(reader, line, first, tokens);
    }
    let mut given = others;
    given.insert(0, first)?;
    call(reader, line, given, tokens)
}

/// An equation that begins with a token.
fn equation_from<'a>(
    reader: Reader,
    token: &Token<'a>,
    tokens: Tokens<'a>,
) -> Parse<'a, LusWrittenEq<'a>>
    ensures { Gives equation_of result
        (parsing.parse_equation_from reader.last token.now tokens.entry
        (bytes_eq token.now.text (codes "="))) }
{
    if is(token.text, b"=") {
        return call(reader, token.line, Vec::new(reader.alloc), &tokens);
    }
    if !is_lustre_name(token.text) {
        return Err(syntax_on(token.line).into());
    }
    let (others, rest) = list(reader, Form::Given, tokens)?;
    right(reader, token.line, token.text, others, &rest)
}

impl<'a> Element<'a> for LusWrittenEq<'a> {
    ghost use Rattle.lustre_grammar.specs.Written.{WrittenEquation};
    ghost use Rattle.lustre_grammar.proofs.lemmas.Continuing.{equation-takes_tokens};

    ghost Written = { WrittenEquation };

    ghost written = { equation_of };

    ghost parse = { parsing.parse_equation };

    ghost takes = { equation-takes_tokens };

    fn read(reader: Reader, tokens: &Tokens<'a>) -> Parse<'a, LusWrittenEq<'a>> {
        let (token, rest) = reader.next(tokens)?;
        equation_from(reader, &token, rest)
    }
}

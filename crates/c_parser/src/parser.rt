// A whole text.
ghost use Rattle.std.specs.Prelude.{◌≡◌, ◌||◌, ◌++◌, ◌∷◌, [], bytes_eq};
ghost use Rattle.std.specs.List.{position_or_len, before_first, after_first};
ghost use Rattle.c_grammar.specs.Tokens as tokens;
ghost use Rattle.c_grammar.specs.Parsing as parsing;
ghost use Rattle.c_expressions.specs.Limited.{limits_of};
ghost use Rattle.c_parser.specs.ParsedText.{GivesText};

use crate::file::file;
use c_expressions::{Limits, Reader, syntax_on};
use c_grammar::{ReadCFault, WrittenProgram};
use c_tokens::{Tokens, is, last_line};
use std::alloc::Global;

// Where the first line ends, or the length.
fn line_end(bytes: &[u8]) -> usize
    ensures { result ≡ position_or_len tokens.is_line_end bytes.now }
{
    bytes.iter().take_while(|b| **b != b'\n').count()
}

// The first line, and what comes after it.
fn split_line(bytes: &[u8]) -> (&[u8], &[u8])
    ensures before { result.0.now ≡ before_first tokens.is_line_end bytes.now }
    ensures behind { result.1.now ≡ after_first tokens.is_line_end bytes.now }
{
    let at = line_end(bytes);
    if at < bytes.len() {
        (&bytes[..at], &bytes[at + 1..])
    } else {
        (bytes, &[])
    }
}

// Whether a file begins so.
fn is_header(line: &[u8]) -> bool
    ensures { result ≡ bytes_eq line.now tokens.header_line
        || bytes_eq line.now (tokens.header_line ++ 13 ∷ []) }
{
    is(line, b"#include <stdint.h>") || is(line, b"#include <stdint.h>\r")
}

// How deep expressions and statements may be, and how many pure functions and parameters there may be.
fn the_limits() -> Limits
    ensures { limits_of result ≡ parsing.the_limits }
{
    Limits {
        exprs: 100,
        stmts: 20,
        pures: 16,
        params: 64,
    }
}

/// The program that is written in a text, by names and with lines; or the first error of the grammar and its limits, `Syntax`
/// or `Deep` (the C subset of `docs/FORMATS.md`).
pub fn parse_c<'a>(alloc: Global, bytes: &'a [u8]) -> Result<WrittenProgram<'a>, ReadCFault>
    ensures { GivesText bytes.now result }
{
    let (header, behind) = split_line(bytes);
    if !is_header(header) {
        return Err(syntax_on(1).into());
    }
    let last = last_line(bytes);
    let limits = the_limits();
    let tokens = Tokens::new(behind, 2);
    let reader = Reader {
        alloc,
        last,
        limits,
    };
    file(reader, tokens)
}

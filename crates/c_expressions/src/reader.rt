// The small parts of a file: each takes the tokens that it reads and gives those after them, or the first error.
ghost use Rattle.std.specs.Prelude.{◌≡◌};
ghost use Rattle.c_grammar.specs.Parsing as parsing;
ghost use Rattle.c_syntax.specs.declared.fault.CKind.TheVariants.{Syntax, Deep};
ghost use Rattle.c_grammar.specs.Prefix as prefix;
ghost use Rattle.c_expressions.specs.Gives.{passed, read_as};

use c_grammar::{Number, ReadCFault};
use c_syntax::{CFault, CKind, CType};
use c_tokens::{Token, Tokens, is, is_name, literal_of_text, type_of_text};
use std::alloc::Global;

/// How deep expressions and statements may be, and how many pure functions and parameters there may be.
#[derive(Clone, Copy, Drop)]
pub struct Limits {
    pub exprs: u32,
    pub stmts: u32,
    pub pures: usize,
    pub params: usize,
}

/// What each part of the reading needs: memory, the last line of the text, where an error at its end is, and the limits.
#[derive(Clone, Copy, Drop)]
pub struct Reader {
    pub alloc: Global,
    pub last: u32,
    pub limits: Limits,
}

/// Something that was read, with the tokens after it, or the first error.
pub type Read<'a, T> = Result<(T, Tokens<'a>), CFault>;

/// Something that was read, with the tokens after it, or why it isn't: the first error, or that memory ran out.
pub type Parse<'a, T> = Result<(T, Tokens<'a>), ReadCFault>;

/// An error of syntax on a line.
pub fn syntax_on(line: u32) -> CFault
    ensures { result ≡ prefix.fault_at line Syntax }
{
    CFault {
        line,
        kind: CKind::Syntax,
    }
}

/// Something beyond a limit on a line.
pub fn deep_on(line: u32) -> CFault
    ensures { result ≡ prefix.fault_at line Deep }
{
    CFault {
        line,
        kind: CKind::Deep,
    }
}

impl Reader {
    /// The next token.
    pub fn next<'a>(self, tokens: &Tokens<'a>) -> Read<'a, Token<'a>>
        ensures { result ≡ parsing.next self.last tokens.now }
    {
        tokens.split_first().ok_or(syntax_on(self.last))
    }

    /// A token with this text.
    pub fn word<'a>(self, tokens: &Tokens<'a>, text: &[u8]) -> Result<Tokens<'a>, CFault>
        ensures { passed result ≡ parsing.parse_word self.last text.now tokens.now }
    {
        let (token, rest) = self.next(tokens)?;
        if !is(token.text, text) {
            return Err(syntax_on(token.line));
        }
        Ok(rest)
    }

    /// A name.
    pub fn name<'a>(self, tokens: &Tokens<'a>) -> Read<'a, &'a [u8]>
        ensures { read_as (λ name. name.now) result ≡ parsing.parse_name self.last tokens.now }
    {
        let (token, rest) = self.next(tokens)?;
        if !is_name(token.text) {
            return Err(syntax_on(token.line));
        }
        Ok((token.text, rest))
    }

    /// A type.
    pub(crate) fn ctype<'a>(self, tokens: &Tokens<'a>) -> Read<'a, CType>
        ensures { result ≡ parsing.parse_type self.last tokens.now }
    {
        let (token, rest) = self.next(tokens)?;
        match type_of_text(token.text) {
            Some(ty) => Ok((ty, rest)),
            None => Err(syntax_on(token.line)),
        }
    }

    /// A literal.
    pub fn literal<'a>(self, tokens: &Tokens<'a>) -> Read<'a, Number>
        ensures { read_as (λ number. number.value) result
            ≡ parsing.parse_literal self.last tokens.now }
    {
        let (token, rest) = self.next(tokens)?;
        match literal_of_text(token.text) {
            Some(number) => Ok((number, rest)),
            None => Err(syntax_on(token.line)),
        }
    }

    /// A cast, without what is cast.
    pub fn cast<'a>(self, tokens: &Tokens<'a>) -> Read<'a, CType>
        ensures { result ≡ parsing.parse_cast self.last tokens.now }
    {
        let rest = self.word(tokens, b"(")?;
        let (ty, rest) = self.ctype(&rest)?;
        let rest = self.word(&rest, b")")?;
        Ok((ty, rest))
    }

    /// The field after `s`.
    pub fn field_name<'a>(self, tokens: &Tokens<'a>) -> Read<'a, &'a [u8]>
        ensures { read_as (λ name. name.now) result
            ≡ parsing.parse_field_name self.last tokens.now }
    {
        let rest = self.word(tokens, b"->")?;
        self.name(&rest)
    }
}

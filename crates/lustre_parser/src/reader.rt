// The small parts of a file: each takes the tokens that it reads and gives those after them, or the first error.
ghost use Rattle.std.specs.Prelude.{◌≡◌, option_map};
ghost use Rattle.c_grammar.specs.Parsing as words;
ghost use Rattle.c_expressions.specs.Gives.{passed, read_as};
ghost use Rattle.lustre_grammar.specs.Parsing as parsing;
ghost use Rattle.lustre_grammar.specs.WrittenTrees.{word_of};

use c_expressions::syntax_on;
use c_syntax::CFault;
use c_tokens::{Token, is};
use lustre_grammar::{LusWord, ReadLusFault};
use lustre_tokens::{Tokens, is_lustre_name, type_of_text};
use std::alloc::Global;

/// What each part of the reading needs: memory, and the last line of the text, where an error at its end is.
#[derive(Clone, Copy, Drop)]
pub(crate) struct Reader {
    pub(crate) alloc: Global,
    pub(crate) last: u32,
}

/// Something that was read, with the tokens after it, or the first error.
pub(crate) type Read<'a, T> = Result<(T, Tokens<'a>), CFault>;

/// Something that was read, with the tokens after it, or why it isn't: the first error, or that memory ran out.
pub(crate) type Parse<'a, T> = Result<(T, Tokens<'a>), ReadLusFault>;

impl Reader {
    /// The next token.
    pub(crate) fn next<'a>(self, tokens: &Tokens<'a>) -> Read<'a, Token<'a>>
        ensures { result ≡ words.next self.last tokens.now }
    {
        tokens.split_first().ok_or(syntax_on(self.last))
    }

    /// A token with this text.
    pub(crate) fn word<'a>(self, tokens: &Tokens<'a>, text: &[u8]) -> Result<Tokens<'a>, CFault>
        ensures { passed result ≡ words.parse_word self.last text.now tokens.now }
    {
        let (token, rest) = self.next(tokens)?;
        if !is(token.text, text) {
            return Err(syntax_on(token.line));
        }
        Ok(rest)
    }

    /// A token with this text, if there is one.
    pub(crate) fn mark<'a>(
        self,
        tokens: Tokens<'a>,
        text: Option<&[u8]>,
    ) -> Result<Tokens<'a>, CFault>
        ensures { passed result
            ≡ parsing.parse_mark self.last (option_map (λ t. t.now) text.entry) tokens.entry }
    {
        match text {
            Some(text) => self.word(&tokens, text),
            None => Ok(tokens),
        }
    }

    /// A name with its line.
    pub(crate) fn name<'a>(self, tokens: &Tokens<'a>) -> Read<'a, LusWord<'a>>
        ensures { read_as word_of result ≡ parsing.parse_name self.last tokens.now }
    {
        let (token, rest) = self.next(tokens)?;
        if !is_lustre_name(token.text) {
            return Err(syntax_on(token.line));
        }
        let name = LusWord {
            line: token.line,
            text: token.text,
        };
        Ok((name, rest))
    }

    /// A type: whether it is `bool`, else it is `int`.
    pub(crate) fn value_type<'a>(self, tokens: &Tokens<'a>) -> Read<'a, bool>
        ensures { result ≡ parsing.parse_type self.last tokens.now }
    {
        let (token, rest) = self.next(tokens)?;
        match type_of_text(token.text) {
            Some(is_bool) => Ok((is_bool, rest)),
            None => Err(syntax_on(token.line)),
        }
    }
}

// The tokens of a text, one after another.
ghost use Rattle.std.specs.Prelude.{◌≡◌, ◌∷◌, [], MatchOption};
ghost use Rattle.c_grammar.specs.Tokens.{tokens_from};
ghost use Rattle.c_grammar.specs.Parsing.{first_text};
ghost use Rattle.c_tokens.specs.Lines.{line_behind};

use crate::bytes::{Piece, first_piece};
use crate::lines::{line_behind, line_past};
use std::marker::Model;

/// A token: its bytes, and the line of the first of them.
#[derive(Drop)]
pub struct Token<'a> {
    pub text: &'a [u8],
    pub line: u32,
}

impl<'a> Model for Token<'a> {
    ghost use Rattle.c_grammar.specs.Tokens as read;

    ghost Value = { read.Token };

    ghost view = { λ t. record { text = t.text.now; line = t.line } };
}

/// The tokens of a text, or of what is left of one, which begins on a line.
#[derive(Drop)]
pub struct Tokens<'a> {
    bytes: &'a [u8],
    line: u32,
}

impl<'a> Model for Tokens<'a> {
    ghost use Rattle.std.specs.Prelude.{List};
    ghost use Rattle.c_grammar.specs.Tokens as read;

    ghost Value = { List read.Token };

    ghost view = { λ t. read.tokens_from 0 t.line t.bytes.now };
}

impl<'a> Tokens<'a> {
    /// The tokens of these bytes, the first of which is on this line.
    pub fn new(bytes: &'a [u8], line: u32) -> Tokens<'a>
        ensures { result ≡ tokens_from 0 line bytes.now }
    {
        Tokens { bytes, line }
    }

    /// The first token, and those after it.
    pub fn split_first(&self) -> Option<(Token<'a>, Tokens<'a>)>
        ensures { MatchOption result (self.now ≡ []) (λ split. self.now ≡ split.0 ∷ split.1) }
    {
        let mut bytes = self.bytes;
        let mut line = self.line;
        while let Some((first, behind)) = bytes.split_first() {
            match first_piece(*first, behind) {
                Piece::Blank => {
                    line = line_past(line, *first);
                    bytes = behind;
                }
                Piece::Comment(len) => {
                    let (skipped, rest) = bytes.split_at(len);
                    line = line_behind(line, skipped);
                    bytes = rest;
                }
                Piece::Token(len) => {
                    let (text, rest) = bytes.split_at(len);
                    return Some((Token { text, line }, Tokens::new(rest, line)));
                }
            }
        }
        None
    }

    /// The bytes of the first token, and none at the end.
    pub fn first_text(&self) -> &'a [u8]
        ensures { result.now ≡ first_text self.now }
    {
        match self.split_first() {
            Some((token, _)) => token.text,
            None => &[],
        }
    }
}

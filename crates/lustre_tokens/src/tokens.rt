// The tokens of a text, one after another.
ghost use Rattle.std.specs.Prelude.{◌≡◌, ◌∷◌, [], drop, None, Some, MatchOption};
ghost use Rattle.lustre_grammar.specs.Tokens.{tokens_from};
ghost use Rattle.lustre_grammar.specs.Parsing.{is_closed};

use crate::bytes::{Piece, first_piece};
use c_tokens::{Token, is, line_past};
use std::marker::Model;

/// The tokens of a text, or of what is left of one, which begins on a line.
#[derive(Drop)]
pub struct Tokens<'a> {
    bytes: &'a [u8],
    line: u32,
}

impl<'a> Model for Tokens<'a> {
    ghost use Rattle.std.specs.Prelude.{List};
    ghost use Rattle.c_grammar.specs.Tokens as grammar;
    ghost use Rattle.lustre_grammar.specs.Tokens as read;

    ghost Value = { List grammar.Token };

    ghost view = { λ t. read.tokens_from 0 t.line t.bytes.now };
}

impl<'a> Tokens<'a> {
    /// The tokens of these bytes, the first of which is on this line.
    pub fn new(bytes: &'a [u8], line: u32) -> Tokens<'a>
        ensures { result ≡ tokens_from 0 line bytes.now }
    {
        Tokens { bytes, line }
    }

    /// The first token, and those after it.
    #[tactic(auto, using(crate::proofs::TokenLines::after_blank))]
    pub fn split_first(&self) -> Option<(Token<'a>, Tokens<'a>)>
        ensures { MatchOption result (self.now ≡ []) (λ split. self.now ≡ split.0 ∷ split.1) }
    {
        let mut bytes = self.bytes;
        let mut line = self.line;
        while let Some((first, after)) = bytes.split_first() {
            match first_piece(*first, after) {
                Piece::Blank => {
                    line = line_past(line, *first);
                    bytes = after;
                }
                Piece::Token(len) => {
                    let (text, rest) = bytes.split_at(len);
                    return Some((Token { text, line }, Tokens::new(rest, line)));
                }
            }
        }
        None
    }

    /// All tokens but the first.
    pub fn rest(&self) -> Tokens<'a>
        ensures { result ≡ drop 1 self.now }
    {
        match self.split_first() {
            Some((_, rest)) => rest,
            None => Tokens::new(&[], 1),
        }
    }

    /// Whether there are none.
    pub fn is_empty(&self) -> bool
        ensures { result ≡ is_closed None self.now }
    {
        self.split_first().is_none()
    }

    /// Whether the first of them has this text.
    pub fn starts_with(&self, text: &[u8]) -> bool
        ensures { result ≡ is_closed (Some text.now) self.now }
    {
        match self.split_first() {
            Some((token, _)) => is(token.text, text),
            None => false,
        }
    }
}

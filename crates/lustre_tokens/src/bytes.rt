// What the bytes of a text begin.
ghost use Rattle.std.specs.Prelude.{◌≡◌};
ghost use Rattle.c_grammar.specs.Tokens.{sign_class, class_of};
ghost use Rattle.lustre_grammar.specs.Tokens as tokens;
ghost use Rattle.lustre_tokens.specs.Pieces.{IsPiece};

use c_tokens::{digits_len, is_white_space, is_word_start, word_len};

/// What a byte begins: a blank, or a token by its length.
#[derive(Clone, Copy, Drop)]
pub(crate) enum Piece {
    Blank,
    Token(usize),
}

// Whether two bytes are one token.
fn is_double_sign(first: u8, second: u8) -> bool
    ensures { result ≡ tokens.is_double_sign first second }
{
    matches!((first, second), (b'-' | b'<', b'>') | (b'<' | b'>', b'='))
}

fn sign_piece(first: u8, rest: &[u8]) -> Piece
    requires { class_of first ≡ sign_class }
    ensures { IsPiece result first rest.now }
{
    let Some((second, _)) = rest.split_first() else {
        return Piece::Token(1);
    };
    if is_double_sign(first, *second) {
        Piece::Token(2)
    } else {
        Piece::Token(1)
    }
}

/// The piece that a byte begins with those after it.
pub(crate) fn first_piece(first: u8, rest: &[u8]) -> Piece
    ensures { IsPiece result first rest.now }
{
    if is_white_space(first) {
        Piece::Blank
    } else if is_word_start(first) {
        Piece::Token(1 + word_len(rest))
    } else if first.is_ascii_digit() {
        Piece::Token(1 + digits_len(rest))
    } else {
        sign_piece(first, rest)
    }
}

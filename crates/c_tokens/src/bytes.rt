// What the bytes of a text begin, and what a token's bytes are.
ghost use Rattle.std.specs.Prelude.{◌≡◌, ◌==◌, ◌&&◌, ◌∷◌};
ghost use Rattle.std.specs.List.{prefix_len};
ghost use Rattle.std.specs.Char.{is_ascii_digit};
ghost use Rattle.c_grammar.specs.Tokens as tokens;
ghost use Rattle.c_syntax.specs.Names as names;
ghost use Rattle.c_tokens.specs.Pieces.{IsPiece};

/// What a text begins with: a blank byte, or a comment or a token by its length.
#[derive(Clone, Copy, Drop)]
pub(crate) enum Piece {
    Blank,
    Comment(usize),
    Token(usize),
}

/// Whether a byte is white space: a blank, a tabulator or the end of a line (C99 6.4p3).
pub fn is_white_space(byte: u8) -> bool
    ensures { result ≡ tokens.is_white_space byte }
{
    matches!(byte, b' ' | b'\t' | b'\n' | b'\r')
}

/// Whether a byte begins a word: a letter or `_` (C99 6.4.2.1).
pub fn is_word_start(byte: u8) -> bool
    ensures { result ≡ names.is_word_start byte }
{
    byte.is_ascii_alphabetic() || byte == b'_'
}

pub(crate) fn is_word_byte(byte: u8) -> bool
    ensures { result ≡ names.is_word_byte byte }
{
    is_word_start(byte) || byte.is_ascii_digit()
}

// Two bytes that are one token.
fn is_double_sign(first: u8, second: u8) -> bool
    ensures { result ≡ tokens.is_double_sign first second }
{
    matches!(
        (first, second),
        (b'-', b'>') | (b'=' | b'!' | b'<' | b'>', b'=') | (b'&', b'&') | (b'|', b'|')
    )
}

// How many bytes there are up to the end of a comment, with that end.
fn comment_end(bytes: &[u8]) -> Option<usize>
    ensures { result ≡ tokens.comment_end bytes.now }
{
    let mut rest = bytes;
    let mut before = 0;
    while let [first, others @ ..] = rest {
        if *first == b'*' && others.starts_with(b"/") {
            return Some(before + 2);
        }
        rest = others;
        before += 1;
    }
    None
}

/// How many letters, digits and `_` bytes begin with.
pub fn word_len(bytes: &[u8]) -> usize
    ensures { result ≡ prefix_len names.is_word_byte bytes.now }
{
    bytes.iter().take_while(|b| is_word_byte(**b)).count()
}

/// How many digits bytes begin with.
pub fn digits_len(bytes: &[u8]) -> usize
    ensures { result ≡ prefix_len is_ascii_digit bytes.now }
{
    bytes.iter().take_while(|b| b.is_ascii_digit()).count()
}

fn opens_comment(first: u8, second: u8) -> bool
    ensures { result ≡ (first == 47) && (second == 42) }
{
    first == b'/' && second == b'*'
}

fn sign_piece(first: u8, rest: &[u8]) -> Piece
    requires { tokens.class_of first ≡ tokens.sign_class }
    ensures { IsPiece result (first ∷ rest.now) }
{
    let Some((second, behind)) = rest.split_first() else {
        return Piece::Token(1);
    };
    if opens_comment(first, *second) {
        match comment_end(behind) {
            Some(len) => Piece::Comment(2 + len),
            None => Piece::Token(2),
        }
    } else if is_double_sign(first, *second) {
        Piece::Token(2)
    } else {
        Piece::Token(1)
    }
}

/// The first piece of a byte and those after it.
pub(crate) fn first_piece(first: u8, rest: &[u8]) -> Piece
    ensures { IsPiece result (first ∷ rest.now) }
{
    if is_white_space(first) {
        Piece::Blank
    } else if is_word_start(first) {
        Piece::Token(1 + word_len(rest))
    } else if first.is_ascii_digit() {
        Piece::Token(1 + digits_len(rest))
    } else {
        sign_piece(first, rest)
    }
}

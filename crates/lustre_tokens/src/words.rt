// What the single words of a file stand for, by their bytes.
ghost use Rattle.std.specs.Prelude.{◌≡◌, bytes_eq, option_map};
ghost use Rattle.std.specs.List.{list_any};
ghost use Rattle.lustre_syntax.specs.Names as names;
ghost use Rattle.lustre_grammar.specs.Prefix as prefix;
ghost use Rattle.lustre_grammar.specs.Parsing as parsing;
ghost use Rattle.lustre_grammar.specs.WrittenTrees.{expr_of};

use c_tokens::{Token, is, is_name, literal_of_text};
use lustre_grammar::{Inside, Joint, LusWord, LusWrittenExpr};
use lustre_syntax::LusOp;

// The words of the grammar.
const WORDS: [&[u8]; 19] = [
    b"node", b"returns", b"var", b"let", b"tel", b"int", b"bool", b"call", b"true", b"false",
    b"not", b"if", b"then", b"else", b"pre", b"div", b"mod", b"and", b"or",
];

fn is_one_of(text: &[u8], words: &[&[u8]]) -> bool
    ensures { result ≡ list_any (λ w. bytes_eq text.now w.now) words.now }
{
    words.iter().any(|word| is(text, word))
}

fn is_word(text: &[u8]) -> bool
    ensures { result ≡ list_any (bytes_eq text.now) names.words }
{
    is_one_of(text, &WORDS)
}

/// Whether a text is a name.
pub fn is_lustre_name(text: &[u8]) -> bool
    ensures { result ≡ names.is_lustre_name text.now }
{
    is(text, b"s") || is_name(text) && !is_word(text)
}

/// The type that is written so: whether it is `bool`, else it is `int`.
pub fn type_of_text(text: &[u8]) -> Option<bool>
    ensures { result ≡ parsing.type_of_text text.now }
{
    match text {
        b"int" => Some(false),
        b"bool" => Some(true),
        _ => None,
    }
}

/// What joins two operands, as it is written.
pub fn joint_of_text(text: &[u8]) -> Option<Joint>
    ensures { result ≡ parsing.joint_of_text text.now }
{
    match text {
        b"+" => Some(Joint::Operator(LusOp::Add)),
        b"-" => Some(Joint::Operator(LusOp::Sub)),
        b"*" => Some(Joint::Operator(LusOp::Mul)),
        b"div" => Some(Joint::Operator(LusOp::Div)),
        b"mod" => Some(Joint::Operator(LusOp::Mod)),
        b"=" => Some(Joint::Operator(LusOp::Eq)),
        b"<>" => Some(Joint::Operator(LusOp::Ne)),
        b"<" => Some(Joint::Operator(LusOp::Lt)),
        b"<=" => Some(Joint::Operator(LusOp::Le)),
        b">" => Some(Joint::Operator(LusOp::Gt)),
        b">=" => Some(Joint::Operator(LusOp::Ge)),
        b"and" => Some(Joint::Operator(LusOp::And)),
        b"or" => Some(Joint::Operator(LusOp::Or)),
        b"->" => Some(Joint::Arrow),
        _ => None,
    }
}

/// The expression that a token is, if one token is the whole of it.
pub fn leaf_of<'a>(token: &Token<'a>) -> Option<LusWrittenExpr<'a>>
    ensures { option_map expr_of result ≡ parsing.leaf_of token.now }
{
    if let Some(number) = literal_of_text(token.text) {
        Some(LusWrittenExpr::Number(number))
    } else if is(token.text, b"true") {
        Some(LusWrittenExpr::Truth(true))
    } else if is(token.text, b"false") {
        Some(LusWrittenExpr::Truth(false))
    } else if is_lustre_name(token.text) {
        Some(LusWrittenExpr::Name(LusWord {
            line: token.line,
            text: token.text,
        }))
    } else {
        None
    }
}

fn is_leaf(text: &[u8]) -> bool
    ensures { result ≡ prefix.is_leaf text.now }
{
    literal_of_text(text).is_some()
        || is(text, b"true")
        || is(text, b"false")
        || is_lustre_name(text)
}

/// Whether a token of this text opens an expression.
pub fn is_opener(text: &[u8]) -> bool
    ensures { result ≡ parsing.is_opener text.now }
{
    is_leaf(text) || is(text, b"(")
}

/// What a token of this text begins after the `(` of an expression.
pub fn inside_of(text: &[u8]) -> Inside
    ensures { result ≡ parsing.inside_of text.now }
{
    match text {
        b"-" => Inside::Minus,
        b"not" => Inside::Not,
        b"if" => Inside::If,
        b"pre" => Inside::Pre,
        _ => Inside::First,
    }
}

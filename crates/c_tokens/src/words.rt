// The single words of a file, by their bytes.
ghost use Rattle.std.specs.Prelude.{◌≡◌, bytes_eq, codes, MatchOption, true, false};
ghost use Rattle.c_tokens.specs.Numerals as numerals;
ghost use Rattle.c_grammar.specs.Prefix.{is_literal, digits_value};
ghost use Rattle.std.specs.List.{list_any, list_all};
ghost use Rattle.c_syntax.specs.Names as tokens;
ghost use Rattle.c_grammar.specs.Parsing as parsing;

use crate::bytes::is_word_byte;
use base_core::Compare;
use base_numerals::{capped_number, is_numeral};
use c_grammar::Number;
use c_syntax::{BinOp, CType};

// The keywords of C99 that begin with a lower-case letter.
const KEYWORDS: [&[u8]; 34] = [
    b"auto",
    b"break",
    b"case",
    b"char",
    b"const",
    b"continue",
    b"default",
    b"do",
    b"double",
    b"else",
    b"enum",
    b"extern",
    b"float",
    b"for",
    b"goto",
    b"if",
    b"inline",
    b"int",
    b"long",
    b"register",
    b"restrict",
    b"return",
    b"short",
    b"signed",
    b"sizeof",
    b"static",
    b"struct",
    b"switch",
    b"typedef",
    b"union",
    b"unsigned",
    b"void",
    b"volatile",
    b"while",
];

/// Whether two texts are one.
pub fn is(text: &[u8], other: &[u8]) -> bool
    ensures { result ≡ bytes_eq text.now other.now }
{
    text == other
}

fn is_one_of(text: &[u8], words: &[&[u8]]) -> bool
    ensures { result ≡ list_any (λ w. bytes_eq text.now w.now) words.now }
{
    words.iter().any(|word| is(text, word))
}

// Whether a text may be a keyword: the second byte of each keyword is a lower-case letter.
#[tactic(auto, using(crate::proofs::Keywords::short_none, crate::proofs::Keywords::second_none))]
fn may_be_keyword(text: &[u8]) -> bool
    ensures { result ≡ false → list_any (bytes_eq text.now) tokens.keywords ≡ false }
{
    match text {
        [_, second, ..] => second.is_ascii_lowercase(),
        _ => false,
    }
}

fn is_keyword(text: &[u8]) -> bool
    ensures { result ≡ list_any (bytes_eq text.now) tokens.keywords }
{
    may_be_keyword(text) && is_one_of(text, &KEYWORDS)
}

fn starts_lower(text: &[u8]) -> bool
    ensures { result ≡ tokens.starts_lower text.now }
{
    match text.first() {
        Some(first) => first.is_ascii_lowercase(),
        None => false,
    }
}

fn are_word_bytes(text: &[u8]) -> bool
    ensures { result ≡ list_all tokens.is_word_byte text.now }
{
    text.iter().all(|byte| is_word_byte(*byte))
}

fn ends_with_t(text: &[u8]) -> bool
    ensures { result ≡ tokens.ends_with text.now (codes "_t") }
{
    let Some((last, front)) = text.split_last() else {
        return false;
    };
    let Some((before, _)) = front.split_last() else {
        return false;
    };
    *last == b't' && *before == b'_'
}

/// Whether a text is a name.
pub fn is_name(text: &[u8]) -> bool
    ensures { result ≡ tokens.is_name text.now }
{
    starts_lower(text)
        && are_word_bytes(text)
        && !ends_with_t(text)
        && !is_keyword(text)
        && !is(text, b"s")
}

/// The type that is written so.
pub fn type_of_text(text: &[u8]) -> Option<CType>
    ensures { result ≡ parsing.type_of_text text.now }
{
    if is(text, b"int8_t") {
        Some(CType::I8)
    } else if is(text, b"uint8_t") {
        Some(CType::U8)
    } else if is(text, b"int16_t") {
        Some(CType::I16)
    } else if is(text, b"uint16_t") {
        Some(CType::U16)
    } else if is(text, b"int32_t") {
        Some(CType::I32)
    } else if is(text, b"uint32_t") {
        Some(CType::U32)
    } else if is(text, b"int64_t") {
        Some(CType::I64)
    } else {
        None
    }
}

/// The operator that is written so.
pub(crate) fn op_of_text(text: &[u8]) -> Option<BinOp>
    ensures { result ≡ parsing.op_of_text text.now }
{
    match text {
        b"+" => Some(BinOp::Add),
        b"-" => Some(BinOp::Sub),
        b"*" => Some(BinOp::Mul),
        b"/" => Some(BinOp::Div),
        b"%" => Some(BinOp::Rem),
        _ => None,
    }
}

/// The comparison that is written so.
pub(crate) fn compare_of_text(text: &[u8]) -> Option<Compare>
    ensures { result ≡ parsing.compare_of_text text.now }
{
    match text {
        b"==" => Some(Compare::Eq),
        b"!=" => Some(Compare::Ne),
        b"<" => Some(Compare::Lt),
        b"<=" => Some(Compare::Le),
        b">=" => Some(Compare::Ge),
        b">" => Some(Compare::Gt),
        _ => None,
    }
}

// `0`, or digits without a leading 0.
fn is_plain_numeral(text: &[u8]) -> bool
    ensures { result ≡ numerals.is_plain_numeral text.now }
{
    let Some((first, _)) = text.split_first() else {
        return false;
    };
    is_numeral(text) && (is(text, b"0") || *first != b'0')
}

/// The literal that is written so: `0`, or digits without a leading 0, of at most 63 bits.
pub fn literal_of_text(text: &[u8]) -> Option<Number>
    ensures { MatchOption result (is_literal text.now ≡ false)
        (λ number. (is_literal text.now ≡ true) × (number.value ≡ digits_value 0 text.now)) }
{
    if !is_plain_numeral(text) {
        return None;
    }
    let value = capped_number(text, 1 << 63);
    if value == 1 << 63 {
        return None;
    }
    Some(Number { value })
}

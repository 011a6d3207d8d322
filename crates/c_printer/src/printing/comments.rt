// Comments that may hold any text.
ghost use Rattle.std.specs.Prelude.{◌≡◌, ◌<◌, ◌≤◌, ◌++◌, length, OnOk};
ghost use Rattle.std.specs.List.{list_all};
ghost use Rattle.std.specs.Str.{is_utf8};
ghost use Rattle.c_grammar.specs.Tokens.{is_white_space};
ghost use Rattle.c_rules.specs.AlikeTexts.{is_quiet};
ghost use Rattle.c_printer.specs.Comments.{byte_after, comment_bytes, comment_text, cut_place, is_inside, is_plain, shown_after, shown_byte};

use crate::printing::put;
use std::alloc::AllocError;

// The most bytes of a text in a comment.
const NOTE_LIMIT: usize = 60;

// How many bytes the comment with a text has.
#[tactic(auto, using(crate::proofs::PlainComments::short_comment, crate::proofs::PlainComments::cut_comment))]
pub(super) fn comment_len(text: &[u8]) -> usize
    ensures { result ≡ length (comment_bytes text.now) }
{
    if text.len() <= NOTE_LIMIT {
        text.len() + 6
    } else {
        cut_place(is_utf8(text), text) + 9
    }
}

// Appends the comment with a text.
pub(super) fn put_comment(out: &mut Vec<u8>, text: &[u8]) -> Result<(), AllocError>
    ensures { OnOk result (out.new.items ≡ out.old.items ++ comment_bytes text.now) }
{
    put(out, b"/* ")?;
    put_text(out, text)?;
    put(out, b" */")
}

// Appends a text as a comment shows it.
#[tactic(auto, using(crate::proofs::PlainComments::plain_comment))]
pub(super) fn put_text(out: &mut Vec<u8>, text: &[u8]) -> Result<(), AllocError>
    ensures { OnOk result (out.new.items ≡ out.old.items ++ comment_text text.now) }
{
    if text.len() <= NOTE_LIMIT && is_plain(text) {
        put(out, text)
    } else {
        put_other_text(out, text)
    }
}

// Whether each byte is shown as it is.
fn is_plain(text: &[u8]) -> bool
    ensures { result ≡ list_all is_plain text.now }
{
    text.iter().all(|byte| is_plain_byte(*byte))
}

// Whether a byte is shown as it is, in whatever text.
fn is_plain_byte(byte: u8) -> bool
    ensures { result ≡ is_plain byte }
{
    is_quiet(byte) && byte <= 127 && byte != b'/'
}

// Appends a text byte by byte.
#[tactic(auto, unfolding(crate::specs::Comments::comment_text))]
fn put_other_text(out: &mut Vec<u8>, text: &[u8]) -> Result<(), AllocError>
    ensures { OnOk result (out.new.items ≡ out.old.items ++ comment_text text.now) }
{
    let in_utf8 = is_utf8(text);
    if text.len() <= NOTE_LIMIT {
        return put_shown(out, in_utf8, text);
    }
    put_shown(out, in_utf8, &text[..cut_place(in_utf8, text)])?;
    put(out, b"...")
}

fn is_utf8(text: &[u8]) -> bool
    ensures { result ≡ is_utf8 text.now }
{
    str::from_utf8(text).is_ok()
}

// Where a text that is too long is cut, so that no character is.
fn cut_place(in_utf8: bool, text: &[u8]) -> usize
    requires { 57 < length text.now }
    ensures place { result ≡ cut_place in_utf8 text.now }
    ensures within { result ≤ 57 }
{
    if !(in_utf8 && is_inside(text[57])) {
        57
    } else if !is_inside(text[56]) {
        56
    } else if !is_inside(text[55]) {
        55
    } else {
        54
    }
}

fn is_inside(byte: u8) -> bool
    ensures { result ≡ is_inside byte }
{
    128 <= byte && byte <= 191
}

// Appends bytes as a comment shows them.
fn put_shown(out: &mut Vec<u8>, in_utf8: bool, text: &[u8]) -> Result<(), AllocError>
    ensures { OnOk result (out.new.items ≡ out.old.items ++ shown_after in_utf8 32 text.now) }
{
    let mut last = b' ';
    for byte in text {
        last = byte_after(in_utf8, last, *byte);
        out.push(last)?;
    }
    Ok(())
}

// Of two `/` in a row the second is a dot.
fn byte_after(in_utf8: bool, last: u8, byte: u8) -> u8
    ensures { result ≡ byte_after in_utf8 last byte }
{
    if byte == b'/' && last == b'/' {
        b'.'
    } else {
        shown_byte(in_utf8, byte)
    }
}

fn shown_byte(in_utf8: bool, byte: u8) -> u8
    ensures { result ≡ shown_byte in_utf8 byte }
{
    if is_quiet(byte) && (byte <= 127 || in_utf8) {
        byte
    } else if is_white_space(byte) {
        b' '
    } else {
        b'.'
    }
}

// Neither a control byte nor one of which ends of comments, joined lines and trigraphs are made.
fn is_quiet(byte: u8) -> bool
    ensures { result ≡ is_quiet byte }
{
    32 <= byte && byte != 127 && byte != b'*' && byte != b'\\' && byte != b'?'
}

fn is_white_space(byte: u8) -> bool
    ensures { result ≡ is_white_space byte }
{
    byte == b' ' || byte == b'\t' || byte == b'\n' || byte == b'\r'
}

// Lines of the text, with the notes on them.
ghost use Rattle.std.specs.Prelude.{◌≡◌, ◌≤◌, ◌+◌, ℕ, List, ◌∷◌, ◌++◌, nat_le, length, take, drop, OnOk};
ghost use Rattle.c_printer.specs.Comments.{comment_bytes};
ghost use Rattle.c_printer.specs.Lines.{ended, margin_bytes, note_line, noted_line};

use crate::printing::comments::{comment_len, put_comment, put_text};
use crate::printing::put;
use std::alloc::{AllocError, Global};

// The most bytes of a line with code and a comment.
const COLUMNS: usize = 100;

// The blanks that a line begins with.
pub(super) fn put_margin(out: &mut Vec<u8>, margin: usize) -> Result<(), AllocError>
    ensures { OnOk result (out.new.items ≡ out.old.items ++ margin_bytes margin) }
{
    if margin == 4 {
        return put(out, b"    ");
    }
    put_blanks(out, margin)
}

fn put_blanks(out: &mut Vec<u8>, count: usize) -> Result<(), AllocError>
    ensures { OnOk result (out.new.items ≡ out.old.items ++ margin_bytes count) }
{
    for _ in 0..count {
        out.push(b' ')?;
    }
    Ok(())
}

fn put_line(out: &mut Vec<u8>, margin: usize, text: &[u8]) -> Result<(), AllocError>
    ensures { OnOk result (out.new.items
        ≡ out.old.items ++ ended (margin_bytes margin ++ text.now)) }
{
    put_margin(out, margin)?;
    put(out, text)?;
    put(out, b"\n")
}

// A note on a line of its own, if there is one.
pub(super) fn put_note(out: &mut Vec<u8>, note: &[u8]) -> Result<(), AllocError>
    ensures { OnOk result (out.new.items ≡ out.old.items ++ note_line 0 note.now) }
{
    if note.is_empty() {
        return Ok(());
    }
    put_comment(out, note)?;
    put(out, b"\n")
}

// Ends the line of the code that begins at a place, after its margin, with its note.
pub(super) fn end_line(
    alloc: Global,
    out: &mut Vec<u8>,
    margin: usize,
    code_at: usize,
    note: &[u8],
) -> Result<(), AllocError>
    requires { code_at ≤ length out.old.items }
    ensures { (before : List ℕ) → take code_at out.old.items ≡ before ++ margin_bytes margin
        → OnOk result (out.new.items
        ≡ before ++ noted_line margin note.now (drop code_at out.old.items)) }
{
    if note.is_empty() {
        put(out, b"\n")
    } else if go_on_one_line(margin, out.len() - code_at, note) {
        put_after(out, note)
    } else {
        put_above(alloc, out, margin, code_at, note)
    }
}

fn go_on_one_line(margin: usize, code_len: usize, note: &[u8]) -> bool
    ensures { result ≡ nat_le (margin + code_len + 1 + length (comment_bytes note.now)) 100 }
{
    let code_end = margin.saturating_add(code_len);
    code_end.saturating_add(1).saturating_add(comment_len(note)) <= COLUMNS
}

// Ends a line with a comment after the code.
fn put_after(out: &mut Vec<u8>, note: &[u8]) -> Result<(), AllocError>
    ensures { OnOk result (out.new.items
        ≡ out.old.items ++ ended (32 ∷ comment_bytes note.now)) }
{
    put(out, b" /* ")?;
    put_text(out, note)?;
    put(out, b" */\n")
}

// Ends a line with a comment in the place of the code, and moves the code to the next line.
fn put_above(
    alloc: Global,
    out: &mut Vec<u8>,
    margin: usize,
    code_at: usize,
    note: &[u8],
) -> Result<(), AllocError>
    requires { code_at ≤ length out.old.items }
    ensures { OnOk result (out.new.items
        ≡ take code_at out.old.items ++ ended (comment_bytes note.now)
        ++ ended (margin_bytes margin ++ drop code_at out.old.items)) }
{
    let code = Vec::from_slice(alloc, &out[code_at..])?;
    out.truncate(code_at);
    put_comment(out, note)?;
    put(out, b"\n")?;
    put_line(out, margin, &code)
}

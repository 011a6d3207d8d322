// Lines of a text.
ghost use Rattle.std.specs.Prelude.{◌≡◌};
ghost use Rattle.base_core.specs.Numbers.{reported_number};
ghost use Rattle.c_grammar.specs.Tokens as tokens;
ghost use Rattle.c_tokens.specs.Lines.{line_behind};

/// The line after a byte of a line: the next one after a line end, else the same.
pub fn line_past(line: u32, byte: u8) -> u32
    ensures { result ≡ reported_number (tokens.line_after byte line) }
{
    if byte == b'\n' {
        line.saturating_add(1)
    } else {
        line
    }
}

/// The line after bytes that begin on a line.
pub(crate) fn line_behind(line: u32, bytes: &[u8]) -> u32
    ensures { result ≡ line_behind line bytes.now }
{
    let mut line = line;
    let mut rest = bytes;
    while let Some((first, others)) = rest.split_first() {
        line = line_past(line, *first);
        rest = others;
    }
    line
}

/// The last line of a text, counted from 1; a line end as the last byte begins none.
pub fn last_line(bytes: &[u8]) -> u32
    ensures { result ≡ tokens.last_line bytes.now }
{
    match bytes.split_last() {
        Some((_, front)) => line_behind(1, front),
        None => 1,
    }
}

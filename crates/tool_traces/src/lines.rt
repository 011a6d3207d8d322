ghost use Rattle.std.specs.Prelude.{◌≡◌, ◌+◌, ◌^◌, ◌≤◌, ◌<◌, ◌==◌, length};
ghost use Rattle.std.specs.List.{position_or_len};
ghost use Rattle.tool_traces.specs.Lines as line;
ghost use Rattle.tool_traces.specs.Lines.{next_line_of};

/// The greatest length of a line without its end, in bytes.
pub const LONGEST_LINE: usize = 4096;

/// What is next in a text that may not be whole yet.
#[derive(Clone, Copy, Debug, PartialEq, Eq, Drop)]
pub enum Next {
    /// A line from the place `start` to the place `end`; the text goes on at `after`, after the line's end.
    Line {
        start: usize,
        end: usize,
        after: usize,
    },
    /// More of the text is wanted.
    More,
    /// A line of more than 4,096 bytes without its end.
    Long,
    /// The text is at its end.
    End,
}

/// The line that begins at the place `from` of the bytes, which are the whole text where it is `ended`, and else its
/// beginning.
///
/// A byte 10 ends a line, and a byte 13 directly before it is part of that end. A last line without an end is a line
/// where it isn't empty.
pub fn next_line(bytes: &[u8], from: usize, ended: bool) -> Next
    requires { from ≤ length bytes.now }
    ensures { result ≡ next_line_of bytes.now from ended }
{
    let text = &bytes[from..];
    let len = line_len(text);
    if len == text.len() {
        unended_line(from, text, ended)
    } else {
        ended_line(from, text, len)
    }
}

// How many bytes come before the first byte 10.
fn line_len(text: &[u8]) -> usize
    ensures len { result ≡ position_or_len (λ c. c == 10) text.now }
    ensures within { result ≤ length text.now }
{
    text.iter().take_while(|c| **c != b'\n').count()
}

// A line that takes this many bytes before its byte 10.
fn ended_line(from: usize, text: &[u8], len: usize) -> Next
    requires within { len < length text.now }
    requires fits { from + length text.now < 2 ^ 63 }
    ensures { result ≡ line.ended_line from text.now len }
{
    let kept = if len > 0 && text[len - 1] == b'\r' {
        len - 1
    } else {
        len
    };
    if kept > LONGEST_LINE {
        return Next::Long;
    }
    Next::Line {
        start: from,
        end: from + kept,
        after: from + len + 1,
    }
}

// What follows where no byte 10 comes.
fn unended_line(from: usize, text: &[u8], ended: bool) -> Next
    requires { from + length text.now < 2 ^ 63 }
    ensures { result ≡ line.unended_line from text.now ended }
{
    let len = text.len();
    if !ended {
        let may_end = len == LONGEST_LINE + 1 && text[LONGEST_LINE] == b'\r';
        return if len <= LONGEST_LINE || may_end {
            Next::More
        } else {
            Next::Long
        };
    }
    match len {
        0 => Next::End,
        1..=LONGEST_LINE => Next::Line {
            start: from,
            end: from + len,
            after: from + len,
        },
        _ => Next::Long,
    }
}

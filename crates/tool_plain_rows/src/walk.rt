// The rows of a trace, one after another.
ghost use Rattle.std.specs.Prelude.{◌≡◌, ◌<◌, ℕ, List, length, MatchResult};
ghost use Rattle.tool_plain_rows.specs.Lines.{IsRow, IsNoRow};

use crate::rows::read_plain_row;
use tool_traces::{BadLine, BadWhy};

/// How many lines a trace may have.
const MOST_LINES: u32 = u32::MAX;

/// Reads the row of a line after so many `lines`, into `into`.
///
/// Fails where the line is no row, whatever may follow. `into` may hold anything then.
pub fn next_plain_row(line: &[u8], lines: u32, into: &mut [i64]) -> Result<(), BadLine>
    ensures next { MatchResult result (λ _. IsRow into.new line.now lines (length into.old))
        (λ bad. IsNoRow bad line.now lines (length into.old)) }
    ensures room { length into.new ≡ length into.old }
{
    if lines == MOST_LINES {
        return Err(BadLine {
            line: lines,
            why: BadWhy::Many,
        });
    }
    match read_plain_row(line, into) {
        Ok(()) => Ok(()),
        Err(why) => Err(BadLine {
            line: lines + 1,
            why,
        }),
    }
}

/// Why a line of more than 4,096 bytes, after so many `lines`, is no row.
pub fn long_plain_row(lines: u32) -> BadLine
    ensures { (line : List ℕ) (size : ℕ) → 4096 < length line → IsNoRow result line lines size }
{
    if lines == MOST_LINES {
        return BadLine {
            line: lines,
            why: BadWhy::Many,
        };
    }
    BadLine {
        line: lines + 1,
        why: BadWhy::Long,
    }
}

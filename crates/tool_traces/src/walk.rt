// The rows of a trace, one after another.
ghost use Rattle.std.specs.Prelude.{◌≡◌, ◌≤◌, [], length, drop, Some, MatchResult, MatchOption};
ghost use Rattle.tool_traces.specs.Lines.{whole_lines};
ghost use Rattle.tool_traces.specs.Pieces.{rows_after, BeginsBadly, IsNextRow, BeginsLine, EndsTrace};

use crate::lines::{Next, next_line};
use crate::rows::{BadLine, BadWhy, read_row};
use base_fixed_point::FixType;

/// How many lines a trace may have.
const MOST_LINES: u32 = u32::MAX;

/// Reads the row of the line that begins at the place `from` of the bytes, after so many `lines`, into `into`, and says where
/// the trace goes on. None where that line's end isn't there.
///
/// Fails where the line is no row, whatever may follow. `into` may hold anything then.
pub fn next_row(
    bytes: &[u8],
    from: usize,
    lines: u32,
    types: &[FixType],
    into: &mut [i64],
) -> Result<Option<usize>, BadLine>
    requires within { from ≤ length bytes.now }
    requires room { length into.old ≡ length types.now }
    ensures next { MatchResult result
        (λ next. MatchOption next (BeginsLine (drop from bytes.now))
        (λ after. IsNextRow bytes.now types.now lines from after into.new))
        (λ bad. BeginsBadly bad (drop from bytes.now) types.now lines) }
    ensures room { length into.new ≡ length into.old }
{
    match next_line(bytes, from, false) {
        Next::End | Next::More => Ok(None),
        _ if lines == MOST_LINES => Err(BadLine {
            line: lines,
            why: BadWhy::Many,
        }),
        Next::Long => Err(BadLine {
            line: lines + 1,
            why: BadWhy::Long,
        }),
        Next::Line { start, end, after } => match read_row(&bytes[start..end], types, into) {
            Ok(()) => Ok(Some(after)),
            Err(why) => Err(BadLine {
                line: lines + 1,
                why,
            }),
        },
    }
}

/// Reads the row of a last line, which has no end, after so many `lines`, into `into`. False where it is empty, and so no line.
///
/// Fails where the line is no row. `into` may hold anything then.
pub fn last_row(
    bytes: &[u8],
    lines: u32,
    types: &[FixType],
    into: &mut [i64],
) -> Result<bool, BadLine>
    requires unended { whole_lines bytes.now ≡ [] }
    requires room { length into.old ≡ length types.now }
    ensures last { MatchResult result (λ there. EndsTrace there bytes.now types.now lines into.new)
        (λ bad. rows_after lines types.now bytes.now ≡ record { rows = []; bad = Some bad }) }
    ensures room { length into.new ≡ length into.old }
{
    if bytes.is_empty() {
        return Ok(false);
    }
    if lines == MOST_LINES {
        return Err(BadLine {
            line: lines,
            why: BadWhy::Many,
        });
    }
    match read_row(bytes, types, into) {
        Ok(()) => Ok(true),
        Err(why) => Err(BadLine {
            line: lines + 1,
            why,
        }),
    }
}

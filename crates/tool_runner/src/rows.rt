// The rows of a trace, one after another.
ghost use Rattle.std.specs.Prelude.{◌≡◌, ◌<◌, ℕ, List, length, MatchResult};
ghost use Rattle.base_fixed_point.specs.declared.types.FixType.{FixType};
ghost use Rattle.tool_runner.specs.Rows.{IsRow, IsNoRow};

use base_fixed_point::FixType;
use tool_traces::{BadLine, BadWhy, read_row};

// How many lines a trace may have.
const MOST_LINES: u32 = u32::MAX;

// Reads the row of a line after so many `lines`, into `into`.
//
// Fails where the line is no row, whatever may follow. `into` may hold anything then.
pub(crate) fn next_row(
    line: &[u8],
    lines: u32,
    types: &[FixType],
    into: &mut [i64],
) -> Result<(), BadLine>
    requires room { length into.old ≡ length types.now }
    ensures next { MatchResult result (λ _. IsRow into.new line.now types.now lines)
        (λ bad. IsNoRow bad line.now types.now lines) }
    ensures room { length into.new ≡ length into.old }
{
    if lines == MOST_LINES {
        return Err(BadLine {
            line: lines,
            why: BadWhy::Many,
        });
    }
    match read_row(line, types, into) {
        Ok(()) => Ok(()),
        Err(why) => Err(BadLine {
            line: lines + 1,
            why,
        }),
    }
}

// Why a line of more than 4,096 bytes, after so many `lines`, is no row.
pub(crate) fn long_row(lines: u32) -> BadLine
    ensures { (line : List ℕ) (types : List FixType) → 4096 < length line →
        IsNoRow result line types lines }
{
    if lines == MOST_LINES {
        return BadLine {
            line: lines,
            why: BadWhy::Many,
        };
    }
    BadLine {
        line: lines + 1,
        why: BadWhy::Long,
    }
}

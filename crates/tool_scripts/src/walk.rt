// The calls of a script, one after another.
ghost use Rattle.std.specs.Prelude.{◌≡◌, ◌≤◌, ◌<◌, ◌^◌, [], length, drop, All, Some, MatchResult, MatchOption, IfOk, IfSome};
ghost use Rattle.tool_traces.specs.Lines.{whole_lines};
ghost use Rattle.tool_traces.specs.Pieces.{BeginsLine};
ghost use Rattle.tool_scripts.specs.Calls.{read_as};
ghost use Rattle.tool_scripts.specs.Pieces.{calls_after, BeginsBadly, IsNextCall, IsLastCall};

use crate::calls::{ReadCall, ScriptWhy, read_call};
use tool_traces::{Next, next_line};

/// How many lines a script may have.
const MOST_LINES: u32 = u32::MAX;

/// A line of a script that is no call by itself, by its number from 1, and why.
#[derive(Clone, Copy, Debug, PartialEq, Eq, Drop)]
pub struct BadCall {
    /// The number of the line, from 1.
    pub line: u32,
    /// Why it is no call.
    pub why: ScriptWhy,
}

/// Reads the call of the line that begins at the place `from` of the bytes, after so many `lines`, its values into the first
/// items of `into`, and says where the script goes on. None where that line's end isn't there.
///
/// `counts` and `into` are those of `read_call`.
///
/// Fails where the line is no call, whatever may follow. `into` may hold anything then.
pub fn next_call(
    bytes: &[u8],
    from: usize,
    lines: u32,
    counts: &[u32],
    into: &mut [i64],
) -> Result<Option<(ReadCall, usize)>, BadCall>
    requires within { from ≤ length bytes.now }
    requires few { length counts.now < 2 ^ 32 }
    requires most { All (λ count. count ≤ length into.old) counts.now }
    ensures next { MatchResult result
        (λ next. MatchOption next (BeginsLine (drop from bytes.now))
        (λ there. IsNextCall bytes.now counts.now (length into.old) lines from there.1
        (read_as there.0 into.new)))
        (λ bad. BeginsBadly bad (drop from bytes.now) counts.now (length into.old) lines) }
    ensures within { IfOk result (λ next. IfSome next (λ there. there.0.count ≤ length into.old)) }
    ensures room { length into.new ≡ length into.old }
{
    match next_line(bytes, from, false) {
        Next::End | Next::More => Ok(None),
        _ if lines == MOST_LINES => Err(BadCall {
            line: lines,
            why: ScriptWhy::Many,
        }),
        Next::Long => Err(BadCall {
            line: lines + 1,
            why: ScriptWhy::Long,
        }),
        Next::Line { start, end, after } => match read_call(&bytes[start..end], counts, into) {
            Ok(read) => Ok(Some((read, after))),
            Err(why) => Err(BadCall {
                line: lines + 1,
                why,
            }),
        },
    }
}

/// Reads the call of a last line, which has no end, after so many `lines`, its values into the first items of `into`. None
/// where it is empty, and so no line.
///
/// `counts` and `into` are those of `read_call`.
///
/// Fails where the line is no call. `into` may hold anything then.
pub fn last_call(
    bytes: &[u8],
    lines: u32,
    counts: &[u32],
    into: &mut [i64],
) -> Result<Option<ReadCall>, BadCall>
    requires unended { whole_lines bytes.now ≡ [] }
    requires few { length counts.now < 2 ^ 32 }
    requires most { All (λ count. count ≤ length into.old) counts.now }
    ensures last { MatchResult result
        (λ last. MatchOption last (calls_after lines counts.now (length into.old) bytes.now
        ≡ record { calls = []; bad = None })
        (λ read. IsLastCall bytes.now counts.now (length into.old) lines (read_as read into.new)))
        (λ bad. calls_after lines counts.now (length into.old) bytes.now
        ≡ record { calls = []; bad = Some bad }) }
    ensures within { IfOk result (λ last. IfSome last (λ read. read.count ≤ length into.old)) }
    ensures room { length into.new ≡ length into.old }
{
    if bytes.is_empty() {
        return Ok(None);
    }
    if lines == MOST_LINES {
        return Err(BadCall {
            line: lines,
            why: ScriptWhy::Many,
        });
    }
    match read_call(bytes, counts, into) {
        Ok(read) => Ok(Some(read)),
        Err(why) => Err(BadCall {
            line: lines + 1,
            why,
        }),
    }
}

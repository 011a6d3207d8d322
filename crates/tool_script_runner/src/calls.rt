// The next call of a script, into the room of a run.
ghost use Rattle.std.specs.Prelude.{◌≡◌, ◌≤◌, ◌<◌, ◌^◌, [], length, drop, All, Some, IfOk, IfSome, MatchResult, MatchOption};
ghost use Rattle.tool_traces.specs.Lines.{whole_lines};
ghost use Rattle.tool_traces.specs.Pieces.{BeginsLine};
ghost use Rattle.tool_scripts.specs.Calls.{read_as};
ghost use Rattle.tool_scripts.specs.Pieces.{calls_after, BeginsBadly, IsNextCall, IsLastCall};
ghost use Rattle.tool_script_runner.specs.Walks.{IsFilled};

use crate::run::Run;
use tool_scripts::{BadCall, ReadCall, last_call, next_call};

// Reads the call of the line that begins at the place `from`, and says where the script goes on. None where its end isn't there.
pub(crate) fn fill_call(
    run: &mut Run,
    counts: &[u32],
    text: &[u8],
    from: usize,
) -> Result<Option<(ReadCall, usize)>, BadCall>
    requires within { from ≤ length text.now }
    requires few { length counts.now < 2 ^ 32 }
    requires most { All (λ count. count ≤ length run.old.values.items) counts.now }
    ensures next { MatchResult result
        (λ next. MatchOption next (BeginsLine (drop from text.now))
        (λ there. IsNextCall text.now counts.now (length run.old.values.items) run.old.done
        from there.1 (read_as there.0 run.new.values.items)))
        (λ bad. BeginsBadly bad (drop from text.now) counts.now
        (length run.old.values.items) run.old.done) }
    ensures room { IfOk result (λ next. IfSome next
        (λ there. there.0.count ≤ length run.old.values.items)) }
    ensures filled { IsFilled run.old run.new }
{
    next_call(text, from, run.done, counts, &mut run.values)
}

// Reads the call of a last line, which has no end. None where it is empty, and so no line.
pub(crate) fn fill_last(
    run: &mut Run,
    counts: &[u32],
    text: &[u8],
) -> Result<Option<ReadCall>, BadCall>
    requires unended { whole_lines text.now ≡ [] }
    requires few { length counts.now < 2 ^ 32 }
    requires most { All (λ count. count ≤ length run.old.values.items) counts.now }
    ensures last { MatchResult result
        (λ last. MatchOption last
        (calls_after run.old.done counts.now (length run.old.values.items) text.now
        ≡ record { calls = []; bad = None })
        (λ read. IsLastCall text.now counts.now (length run.old.values.items) run.old.done
        (read_as read run.new.values.items)))
        (λ bad. calls_after run.old.done counts.now (length run.old.values.items) text.now
        ≡ record { calls = []; bad = Some bad }) }
    ensures room { IfOk result
        (λ last. IfSome last (λ read. read.count ≤ length run.old.values.items)) }
    ensures filled { IsFilled run.old run.new }
{
    last_call(text, run.done, counts, &mut run.values)
}

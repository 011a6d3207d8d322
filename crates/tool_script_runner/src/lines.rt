// The lines of a script through the driver.
ghost use Rattle.std.specs.Prelude.{◌≡◌, ◌≢◌, ◌≤◌, ◌++◌, [], List, ℕ, length, Err, IsErrOf, MatchResult};
ghost use Rattle.base_host.specs.Faults.{Rose};
ghost use Rattle.tool_traces.specs.Lines.{whole_lines};
ghost use Rattle.tool_scripts.specs.Pieces.{calls_after};
ghost use Rattle.tool_driver.specs.Shapes.{inputs_of};
ghost use Rattle.tool_script_runner.specs.Walks.{inside, AreCounts, HasRoom, RunsLines, RunsToEnd, RunsTo};

use crate::answers::answer;
use crate::calls::{fill_call, fill_last};
use crate::outcome::ScriptFault;
use crate::run::Run;
use base_host::Sink;
use tool_driver::Driver;

// The call of each whole line of the text. Says where the last of them ends. The lines that they give may wait.
fn answer_lines<S: Sink>(
    run: &mut Run,
    driver: &mut Driver,
    counts: &[u32],
    text: &[u8],
    sink: &mut S,
) -> Result<usize, ScriptFault>
    requires counts { AreCounts counts.now driver.old.shape }
    requires room { HasRoom run.old driver.old.shape }
    ensures ran { MatchResult result
        (λ done. RunsLines done text.now counts.now (length (inputs_of driver.old.shape))
        run.old.done run.new.done
        (inside driver.old run.old (S.bytes sink.old))
        (inside driver.new run.new (S.bytes sink.new)))
        (λ fault. (behind : List ℕ) → RunsTo fault run.old.done
        (calls_after run.old.done counts.now (length (inputs_of driver.old.shape))
        (text.now ++ behind))
        (inside driver.old run.old (S.bytes sink.old))
        (inside driver.new run.new (S.bytes sink.new))) }
    ensures room { HasRoom run.new driver.new.shape }
    ensures shape { driver.new.shape ≡ driver.old.shape }
    ensures cause { IsErrOf result ScriptFault.Out → Rose (S.faults sink.old) (S.faults sink.new) }
    ensures calm { result ≢ Err ScriptFault.Out → S.faults sink.new ≡ S.faults sink.old }
    ensures later { S.faults sink.old ≤ S.faults sink.new }
{
    let mut at = 0;
    loop {
        let (read, after) = match fill_call(run, counts, text, at) {
            Ok(Some(there)) => there,
            Ok(None) => return Ok(at),
            Err(bad) => return Err(ScriptFault::Line(bad)),
        };
        answer(run, driver, read, sink)?;
        at = after;
    }
}

// The call of the text as a last line without an end, where it isn't empty. The line that it gives may wait.
fn answer_last<S: Sink>(
    run: &mut Run,
    driver: &mut Driver,
    counts: &[u32],
    text: &[u8],
    sink: &mut S,
) -> Result<(), ScriptFault>
    requires counts { AreCounts counts.now driver.old.shape }
    requires room { HasRoom run.old driver.old.shape }
    requires unended { whole_lines text.now ≡ [] }
    ensures ran { MatchResult result
        (λ _. RunsToEnd
        (calls_after run.old.done counts.now (length (inputs_of driver.old.shape)) text.now)
        (inside driver.old run.old (S.bytes sink.old))
        (inside driver.new run.new (S.bytes sink.new)))
        (λ fault. RunsTo fault run.old.done
        (calls_after run.old.done counts.now (length (inputs_of driver.old.shape)) text.now)
        (inside driver.old run.old (S.bytes sink.old))
        (inside driver.new run.new (S.bytes sink.new))) }
    ensures cause { IsErrOf result ScriptFault.Out → Rose (S.faults sink.old) (S.faults sink.new) }
    ensures calm { result ≢ Err ScriptFault.Out → S.faults sink.new ≡ S.faults sink.old }
    ensures later { S.faults sink.old ≤ S.faults sink.new }
{
    match fill_last(run, counts, text) {
        Ok(Some(read)) => answer(run, driver, read, sink),
        Ok(None) => Ok(()),
        Err(bad) => Err(ScriptFault::Line(bad)),
    }
}

/// The call of each whole line of the text. Says where the last of them ends, and prints all that waits, however it ends.
pub(crate) fn run_lines<S: Sink>(
    run: &mut Run,
    driver: &mut Driver,
    counts: &[u32],
    text: &[u8],
    sink: &mut S,
) -> Result<usize, ScriptFault>
    requires counts { AreCounts counts.now driver.old.shape }
    requires room { HasRoom run.old driver.old.shape }
    ensures ran { MatchResult result
        (λ done. RunsLines done text.now counts.now (length (inputs_of driver.old.shape))
        run.old.done run.new.done
        (inside driver.old run.old (S.bytes sink.old))
        (inside driver.new run.new (S.bytes sink.new)))
        (λ fault. (behind : List ℕ) → RunsTo fault run.old.done
        (calls_after run.old.done counts.now (length (inputs_of driver.old.shape))
        (text.now ++ behind))
        (inside driver.old run.old (S.bytes sink.old))
        (inside driver.new run.new (S.bytes sink.new))) }
    ensures empty { result ≢ Err ScriptFault.Out → run.new.lines ≡ [] }
    ensures room { HasRoom run.new driver.new.shape }
    ensures shape { driver.new.shape ≡ driver.old.shape }
    ensures cause { IsErrOf result ScriptFault.Out → Rose (S.faults sink.old) (S.faults sink.new) }
    ensures calm { result ≢ Err ScriptFault.Out → S.faults sink.new ≡ S.faults sink.old }
    ensures later { S.faults sink.old ≤ S.faults sink.new }
{
    let ran = answer_lines(run, driver, counts, text, sink);
    if let Err(ScriptFault::Out) = ran {
        return ran;
    }
    if run.lines.flush(sink).is_err() {
        return Err(ScriptFault::Out);
    }
    ran
}

/// The call of the text as a last line without an end, where it isn't empty. Prints all that waits, however it ends.
pub(crate) fn run_last<S: Sink>(
    run: &mut Run,
    driver: &mut Driver,
    counts: &[u32],
    text: &[u8],
    sink: &mut S,
) -> Result<(), ScriptFault>
    requires counts { AreCounts counts.now driver.old.shape }
    requires room { HasRoom run.old driver.old.shape }
    requires unended { whole_lines text.now ≡ [] }
    ensures ran { MatchResult result
        (λ _. RunsToEnd
        (calls_after run.old.done counts.now (length (inputs_of driver.old.shape)) text.now)
        (inside driver.old run.old (S.bytes sink.old))
        (inside driver.new run.new (S.bytes sink.new)))
        (λ fault. RunsTo fault run.old.done
        (calls_after run.old.done counts.now (length (inputs_of driver.old.shape)) text.now)
        (inside driver.old run.old (S.bytes sink.old))
        (inside driver.new run.new (S.bytes sink.new))) }
    ensures empty { result ≢ Err ScriptFault.Out → run.new.lines ≡ [] }
    ensures cause { IsErrOf result ScriptFault.Out → Rose (S.faults sink.old) (S.faults sink.new) }
    ensures calm { result ≢ Err ScriptFault.Out → S.faults sink.new ≡ S.faults sink.old }
    ensures later { S.faults sink.old ≤ S.faults sink.new }
{
    let ran = answer_last(run, driver, counts, text, sink);
    if let Err(ScriptFault::Out) = ran {
        return ran;
    }
    if run.lines.flush(sink).is_err() {
        return Err(ScriptFault::Out);
    }
    ran
}

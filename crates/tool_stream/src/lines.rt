// The lines of a text, one after another.
ghost use Rattle.std.specs.Prelude.{◌≡◌, ◌≢◌, ◌+◌, ◌≤◌, [], ◌∷◌, length, Err, IfOk, OnOk, MatchResult};
ghost use Rattle.std.specs.Str.Lines.{lines};
ghost use Rattle.base_host.specs.Faults.{HasCauseOf};
ghost use Rattle.tool_traces.specs.Lines.{whole_lines};
ghost use Rattle.tool_stream.specs.Walks.{place, WalksOver, WalksLine, WalksText};

use crate::fault::StreamFault;
use crate::line_walk::LineWalk;
use base_host::{PutBuffer, Sink};
use tool_traces::{Next, next_line};

// Walks over one line. Its output may wait.
fn walk_line<W: LineWalk, S: Sink>(
    walk: &mut W,
    machine: &mut W::Machine,
    line: &[u8],
    waiting: &mut PutBuffer,
    sink: &mut S,
) -> Result<(), StreamFault<W::Stop>>
    requires ready { W.ready (walk.old, machine.old) }
    requires few { W.count walk.old ≤ 4294967295 }
    ensures walked { WalksLine W.steps (λ a. W.said a.0) W.stops result line.now
        (place (walk.old, machine.old) (S.bytes sink.old) waiting.old)
        (place (walk.new, machine.new) (S.bytes sink.new) waiting.new) }
    ensures ready { OnOk result (W.ready (walk.new, machine.new)) }
    ensures counted { OnOk result (W.count walk.new ≡ W.count walk.old + 1) }
    ensures few { OnOk result (W.count walk.new ≤ 4294967295) }
    ensures unread { result ≢ Err StreamFault.Read }
    ensures cause { HasCauseOf StreamFault.Put (S.faults sink.old) (S.faults sink.new) result }
{
    if let Err(stop) = walk.line(machine, line) {
        return Err(StreamFault::Line(stop));
    }
    if walk.print(waiting, sink).is_err() {
        return Err(StreamFault::Put);
    }
    Ok(())
}

// Walks over each whole line of the text. Says where the last of them ends. Their outputs may wait.
fn walk_whole<W: LineWalk, S: Sink>(
    walk: &mut W,
    machine: &mut W::Machine,
    text: &[u8],
    waiting: &mut PutBuffer,
    sink: &mut S,
) -> Result<usize, StreamFault<W::Stop>>
    requires ready { W.ready (walk.old, machine.old) }
    requires few { W.count walk.old ≤ 4294967295 }
    ensures walked { WalksText W.steps (λ a. W.said a.0) W.stops result text.now
        (place (walk.old, machine.old) (S.bytes sink.old) waiting.old)
        (place (walk.new, machine.new) (S.bytes sink.new) waiting.new) }
    ensures ready { OnOk result (W.ready (walk.new, machine.new)) }
    ensures later { OnOk result (W.count walk.old ≤ W.count walk.new) }
    ensures few { OnOk result (W.count walk.new ≤ 4294967295) }
    ensures none { IfOk result (λ done. W.count walk.new ≡ W.count walk.old → done ≡ 0) }
    ensures unread { result ≢ Err StreamFault.Read }
    ensures cause { HasCauseOf StreamFault.Put (S.faults sink.old) (S.faults sink.new) result }
{
    let mut at = 0;
    loop {
        match next_line(text, at, false) {
            Next::Line { start, end, after } => {
                walk_line(walk, machine, &text[start..end], waiting, sink)?;
                at = after;
            }
            Next::Long => return Err(StreamFault::Line(walk.too_long())),
            Next::End | Next::More => return Ok(at),
        }
    }
}

// Walks over the text as a last line without an end, where it isn't empty. Its output may wait.
fn walk_unended<W: LineWalk, S: Sink>(
    walk: &mut W,
    machine: &mut W::Machine,
    text: &[u8],
    waiting: &mut PutBuffer,
    sink: &mut S,
) -> Result<(), StreamFault<W::Stop>>
    requires ready { W.ready (walk.old, machine.old) }
    requires few { W.count walk.old ≤ 4294967295 }
    requires unended { whole_lines text.now ≡ [] }
    ensures walked { WalksOver W.steps (λ a. W.said a.0) W.stops result (lines text.now)
        (place (walk.old, machine.old) (S.bytes sink.old) waiting.old)
        (place (walk.new, machine.new) (S.bytes sink.new) waiting.new) }
    ensures unread { result ≢ Err StreamFault.Read }
    ensures cause { HasCauseOf StreamFault.Put (S.faults sink.old) (S.faults sink.new) result }
{
    if text.is_empty() {
        return Ok(());
    }
    walk_line(walk, machine, text, waiting, sink)
}

/// Walks over each whole line of the text. Says where the last of them ends, and prints all that waits, however it ends.
pub(crate) fn walk_lines<W: LineWalk, S: Sink>(
    walk: &mut W,
    machine: &mut W::Machine,
    text: &[u8],
    waiting: &mut PutBuffer,
    sink: &mut S,
) -> Result<usize, StreamFault<W::Stop>>
    requires ready { W.ready (walk.old, machine.old) }
    requires few { W.count walk.old ≤ 4294967295 }
    ensures walked { WalksText W.steps (λ a. W.said a.0) W.stops result text.now
        (place (walk.old, machine.old) (S.bytes sink.old) waiting.old)
        (place (walk.new, machine.new) (S.bytes sink.new) waiting.new) }
    ensures empty { result ≢ Err StreamFault.Put → waiting.new ≡ [] }
    ensures ready { OnOk result (W.ready (walk.new, machine.new)) }
    ensures later { OnOk result (W.count walk.old ≤ W.count walk.new) }
    ensures few { OnOk result (W.count walk.new ≤ 4294967295) }
    ensures none { IfOk result (λ done. W.count walk.new ≡ W.count walk.old → done ≡ 0) }
    ensures unread { result ≢ Err StreamFault.Read }
    ensures cause { HasCauseOf StreamFault.Put (S.faults sink.old) (S.faults sink.new) result }
{
    let ran = walk_whole(walk, machine, text, waiting, sink);
    if let Err(StreamFault::Put) = ran {
        return ran;
    }
    if waiting.flush(sink).is_err() {
        return Err(StreamFault::Put);
    }
    ran
}

/// Walks over the text as a last line without an end, where it isn't empty. Prints all that waits, however it ends.
pub(crate) fn walk_last<W: LineWalk, S: Sink>(
    walk: &mut W,
    machine: &mut W::Machine,
    text: &[u8],
    waiting: &mut PutBuffer,
    sink: &mut S,
) -> Result<(), StreamFault<W::Stop>>
    requires ready { W.ready (walk.old, machine.old) }
    requires few { W.count walk.old ≤ 4294967295 }
    requires unended { whole_lines text.now ≡ [] }
    ensures walked { WalksOver W.steps (λ a. W.said a.0) W.stops result (lines text.now)
        (place (walk.old, machine.old) (S.bytes sink.old) waiting.old)
        (place (walk.new, machine.new) (S.bytes sink.new) waiting.new) }
    ensures empty { result ≢ Err StreamFault.Put → waiting.new ≡ [] }
    ensures unread { result ≢ Err StreamFault.Read }
    ensures cause { HasCauseOf StreamFault.Put (S.faults sink.old) (S.faults sink.new) result }
{
    let ran = walk_unended(walk, machine, text, waiting, sink);
    if let Err(StreamFault::Put) = ran {
        return ran;
    }
    if waiting.flush(sink).is_err() {
        return Err(StreamFault::Put);
    }
    ran
}

/// Walks over the lines of a text, and prints their outputs.
///
/// # Errors
///
/// `Line` exactly at the first line that ends the walk, and `Put` only where the sink counted an error. The outputs of the lines
/// before stay, at `Put` a front of them.
pub fn walk_text<W: LineWalk, S: Sink>(
    walk: &mut W,
    machine: &mut W::Machine,
    text: &[u8],
    waiting: &mut PutBuffer,
    sink: &mut S,
) -> Result<(), StreamFault<W::Stop>>
    requires ready { W.ready (walk.old, machine.old) }
    requires few { W.count walk.old ≤ 4294967295 }
    ensures walked { WalksOver W.steps (λ a. W.said a.0) W.stops result (lines text.now)
        (place (walk.old, machine.old) (S.bytes sink.old) waiting.old)
        (place (walk.new, machine.new) (S.bytes sink.new) waiting.new) }
    ensures empty { result ≢ Err StreamFault.Put → waiting.new ≡ [] }
    ensures unread { result ≢ Err StreamFault.Read }
    ensures cause { HasCauseOf StreamFault.Put (S.faults sink.old) (S.faults sink.new) result }
{
    let done = walk_lines(walk, machine, text, waiting, sink)?;
    walk_last(walk, machine, &text[done..], waiting, sink)
}

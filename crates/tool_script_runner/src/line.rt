// The line of a call of an output function.
ghost use Rattle.std.specs.Prelude.{◌≡◌, ◌∷◌, ◌++◌, codes, OnOk, OnErr};
ghost use Rattle.base_host.specs.Faults.{HasCause};
ghost use Rattle.base_host.specs.Files.{PutsFront};
ghost use Rattle.base_host.specs.Buffers.{PutsAllBut};
ghost use Rattle.tool_runner.specs.Texts.{outputs_line};

use base_host::{Failed, PutBuffer, Sink};
use tool_runner::put_line;

// Prints the line of a call, by the function's number and after it the outputs that it reported.
pub(crate) fn put_call<S: Sink>(
    lines: &mut PutBuffer,
    sink: &mut S,
    numbers: &[i64],
) -> Result<(), Failed>
    ensures taken { OnOk result
        (PutsAllBut lines.new (lines.old ++ (codes "out " ++ outputs_line numbers.now))
        (S.bytes sink.old) (S.bytes sink.new)) }
    ensures front { OnErr result (PutsFront
        (S.bytes sink.old) (S.bytes sink.new)
        (lines.old ++ (codes "out " ++ outputs_line numbers.now))) }
    ensures cause { HasCause (S.faults sink.old) (S.faults sink.new) result }
{
    lines.put(sink, b"out ")?;
    put_line(lines, sink, numbers)
}

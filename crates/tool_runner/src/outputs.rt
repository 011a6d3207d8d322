// The line of a tick.
ghost use Rattle.std.specs.Prelude.{◌≡◌, ◌∷◌, ◌++◌, [], map, flat_map, OnOk, OnErr};
ghost use Rattle.std.specs.Fmt.{signed_decimal};
ghost use Rattle.std.specs.List.{join_with_byte};
ghost use Rattle.base_host.specs.Faults.{HasCause};
ghost use Rattle.base_host.specs.Files.{PutsFront};
ghost use Rattle.base_host.specs.Buffers.{PutsAllBut};
ghost use Rattle.tool_runner.specs.Texts.{outputs_line};

use base_host::{Failed, PutBuffer, Sink};
use itoa::Buffer;

// Prints the decimal text of a number.
fn put_number<S: Sink>(lines: &mut PutBuffer, sink: &mut S, number: i64) -> Result<(), Failed>
    ensures taken { OnOk result (PutsAllBut lines.new (lines.old ++ signed_decimal number) (S.bytes sink.old)
        (S.bytes sink.new)) }
    ensures front { OnErr result
        (PutsFront (S.bytes sink.old) (S.bytes sink.new) (lines.old ++ signed_decimal number)) }
    ensures cause { HasCause (S.faults sink.old) (S.faults sink.new) result }
{
    let mut digits = Buffer::new();
    lines.put(sink, digits.format(number).as_bytes())
}

// Prints the decimal text of a number after a space.
fn put_behind<S: Sink>(lines: &mut PutBuffer, sink: &mut S, number: i64) -> Result<(), Failed>
    ensures taken { OnOk result (PutsAllBut lines.new (lines.old ++ 32 ∷ signed_decimal number)
        (S.bytes sink.old) (S.bytes sink.new)) }
    ensures front { OnErr result
        (PutsFront (S.bytes sink.old) (S.bytes sink.new)
        (lines.old ++ 32 ∷ signed_decimal number)) }
    ensures cause { HasCause (S.faults sink.old) (S.faults sink.new) result }
{
    lines.put(sink, b" ")?;
    put_number(lines, sink, number)
}

// Prints the decimal texts of numbers, each after a space.
fn put_others<S: Sink>(lines: &mut PutBuffer, sink: &mut S, numbers: &[i64]) -> Result<(), Failed>
    ensures taken { OnOk result
        (PutsAllBut lines.new (lines.old ++ flat_map (λ n. 32 ∷ signed_decimal n) numbers.now)
        (S.bytes sink.old) (S.bytes sink.new)) }
    ensures front { OnErr result
        (PutsFront (S.bytes sink.old) (S.bytes sink.new)
        (lines.old ++ flat_map (λ n. 32 ∷ signed_decimal n) numbers.now)) }
    ensures cause { HasCause (S.faults sink.old) (S.faults sink.new) result }
{
    for number in numbers {
        put_behind(lines, sink, *number)?;
    }
    Ok(())
}

// Prints the decimal texts of numbers, with a space between each two.
fn put_numbers<S: Sink>(lines: &mut PutBuffer, sink: &mut S, numbers: &[i64]) -> Result<(), Failed>
    ensures taken { OnOk result
        (PutsAllBut lines.new (lines.old ++ join_with_byte 32 (map signed_decimal numbers.now))
        (S.bytes sink.old) (S.bytes sink.new)) }
    ensures front { OnErr result
        (PutsFront (S.bytes sink.old) (S.bytes sink.new)
        (lines.old ++ join_with_byte 32 (map signed_decimal numbers.now))) }
    ensures cause { HasCause (S.faults sink.old) (S.faults sink.new) result }
{
    if numbers.is_empty() {
        return Ok(());
    }
    put_number(lines, sink, numbers[0])?;
    put_others(lines, sink, &numbers[1..])
}

/// Prints the line of a tick with these outputs, or lets it wait: decimal numbers with a space between each two.
///
/// Fails only where the sink counted an error. Then a front of what waited and of the line was printed, and the rest is lost.
pub fn put_line<S: Sink>(lines: &mut PutBuffer, sink: &mut S, outputs: &[i64]) -> Result<(), Failed>
    ensures taken { OnOk result (PutsAllBut lines.new (lines.old ++ outputs_line outputs.now)
        (S.bytes sink.old) (S.bytes sink.new)) }
    ensures front { OnErr result
        (PutsFront (S.bytes sink.old) (S.bytes sink.new) (lines.old ++ outputs_line outputs.now)) }
    ensures cause { HasCause (S.faults sink.old) (S.faults sink.new) result }
{
    put_numbers(lines, sink, outputs)?;
    lines.put(sink, b"\n")
}

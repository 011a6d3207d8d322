ghost use Rattle.std.specs.Prelude.{◌≡◌, ◌++◌, ◌<◌, ◌≤◌, IfOk, OnOk};
ghost use Rattle.std.specs.String.{string_bytes};
ghost use Rattle.tool_generator.specs.Draws.{draw};
ghost use Rattle.tool_generator.specs.Models.{row_text, trace_text};

use crate::draws::Draws;
use base_core::Memory;
use std::alloc::Global;
use std::fmt::Write;

/// How many ticks a generated trace has.
const TICKS: u32 = 4;

/// The text of the trace for the model of these two numbers: four lines, each with a number of -500 to 499, drawn
/// after those of the model.
///
/// The only error is that memory runs out.
pub fn generate_trace(alloc: Global, start: u32, size: u32) -> Result<Vec<u8>, Memory>
    requires start_positive { 0 < start }
    requires start_bound { start ≤ 2147483646 }
    requires size_positive { 0 < size }
    requires size_bound { size ≤ 2499 }
    ensures { IfOk result (λ text. text.items ≡ trace_text start size) }
{
    let mut draws = Draws { state: start };
    draws.skip(3 * size);
    let mut out = String::new(alloc);
    for _k in 0..TICKS {
        push_row(&mut out, &mut draws)?;
    }
    Ok(out.into_bytes())
}

// Appends the line of the next draw.
fn push_row(out: &mut String, draws: &mut Draws) -> Result<(), Memory>
    ensures text { OnOk result (string_bytes out.new
        ≡ string_bytes out.old ++ row_text (draw draws.old.state)) }
    ensures state { draws.new.state ≡ draw draws.old.state }
{
    let input = (draws.next() % 1000) as i32 - 500;
    write!(out, "{input}\n")?;
    Ok(())
}

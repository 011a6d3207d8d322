// The names of a node of a system.
ghost use Rattle.std.specs.Prelude.{◌≡◌, IfOk};
ghost use Rattle.emit_shape.specs.Names as shape;
ghost use Rattle.lustre_system.specs.Names as names;

use base_core::{Control, Memory, Port, Text};
use emit_row_facts::{input_name, joined, memory_name, named};
use std::alloc::Global;

/// The name that says whether a delay takes a sample.
pub fn takes_name(alloc: Global, b: u32) -> Result<Text, Memory>
    ensures { IfOk result (λ t. t ≡ names.takes_name b) }
{
    Text::numbered(alloc, "r", u64::from(b))
}

/// The name of sample `k` of what row `b` remembers; the oldest one is 0.
#[tactic(auto, using(crate::proofs::NameLaws::later_sample))]
pub fn sample_name(alloc: Global, b: u32, k: u32) -> Result<Text, Memory>
    ensures { IfOk result (λ t. t ≡ names.sample_name b k) }
{
    let oldest = memory_name(alloc, b)?;
    if k == 0 {
        return Ok(oldest);
    }
    let end = Text::numbered(alloc, "_", u64::from(k))?;
    joined(alloc, oldest.bytes(), end.bytes())
}

/// The name of what call `n` for row `b` gives.
pub fn part_name(alloc: Global, b: u32, n: u32) -> Result<Text, Memory>
    ensures { IfOk result (λ t. t ≡ names.part_name b n) }
{
    let front = Text::numbered(alloc, "q", u64::from(b))?;
    let end = Text::numbered(alloc, "_", u64::from(n))?;
    joined(alloc, front.bytes(), end.bytes())
}

/// The name of an input of a system of this control.
pub fn port_name(alloc: Global, control: Control, port: Port) -> Result<Text, Memory>
    ensures { IfOk result (λ t. t ≡ shape.port_name control port) }
{
    match port {
        Port::Number(k) => input_name(alloc, k),
        Port::Enable => named(alloc, "ctl"),
        Port::Trigger => trigger_param(alloc, control),
    }
}

// The name of the trigger of a system of this control.
fn trigger_param(alloc: Global, control: Control) -> Result<Text, Memory>
    ensures { IfOk result (λ t. t ≡ shape.trigger_param control) }
{
    match control {
        Control::Both { .. } => named(alloc, "trg"),
        _ => named(alloc, "ctl"),
    }
}

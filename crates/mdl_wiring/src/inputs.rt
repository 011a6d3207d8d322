ghost use Rattle.std.specs.Prelude.{◌≡◌, IfOk, take};
ghost use Rattle.base_refusals.specs.FirstRefusal.{as_plain};
ghost use Rattle.mdl_wiring.specs.Refusals as refusals;
ghost use Rattle.mdl_wiring.specs.Held.{AreInputsOf, end_at, end_seen, ends_seen};

use crate::lines::LineEnd;
use crate::names::is_before;
use crate::ports::{Input, input_at};
use base_core::Memory;
use base_refusals::{Refusal, earlier};
use indexmap::IndexMap;
use std::alloc::Global;

/// Inputs, each with the place of the first line end that leads to it.
pub(crate) type Inputs = IndexMap<Input, usize>;

/// The inputs to which these line ends lead.
pub(crate) fn inputs_of(alloc: Global, ends: &[LineEnd]) -> Result<Inputs, Memory>
    ensures { IfOk result (λ inputs. AreInputsOf (ends_seen ends.now) inputs) }
{
    let mut inputs = IndexMap::new(alloc);
    for (place, end) in ends.iter().enumerate() {
        if let Some(input) = input_at(&end.target) {
            if inputs.get(&input).is_none() {
                inputs.insert(input, place)?;
            }
        }
    }
    Ok(inputs)
}

/// The place of the first line end that leads to an input.
pub(crate) fn end_at(inputs: &Inputs, input: Input) -> Option<usize>
    ensures { result ≡ end_at inputs.now input }
{
    inputs.get(&input).copied()
}

/// Whether a line end before this place leads to the input to which this one leads.
fn is_led_before(ends: &[LineEnd], inputs: &Inputs, end: &LineEnd, at: usize) -> bool
    requires { AreInputsOf (ends_seen ends.now) inputs.now }
    ensures { result ≡ refusals.is_led_among (take at (ends_seen ends.now)) (end_seen end.now) }
{
    match input_at(&end.target) {
        Some(input) => is_before(end_at(inputs, input), at),
        None => false,
    }
}

/// The refusal of the line end at a place, where an earlier one leads to the same input.
fn second_source(ends: &[LineEnd], inputs: &Inputs, end: &LineEnd, at: usize) -> Option<Refusal>
    requires { AreInputsOf (ends_seen ends.now) inputs.now }
    ensures { as_plain result ≡ refusals.second_source (ends_seen ends.now) at (end_seen end.now) }
{
    if is_led_before(ends, inputs, end, at) {
        Some(Refusal::TwoSources {
            line: end.target.line,
        })
    } else {
        None
    }
}

/// The first line end at an input to which an earlier one leads.
pub(crate) fn least_second_source(ends: &[LineEnd], inputs: &Inputs) -> Option<Refusal>
    requires { AreInputsOf (ends_seen ends.now) inputs.now }
    ensures { as_plain result ≡ refusals.double_sources (ends_seen ends.now) }
{
    let mut least = None;
    for (at, end) in ends.iter().enumerate() {
        least = earlier(least, second_source(ends, inputs, end, at));
    }
    least
}

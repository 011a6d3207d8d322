// The names of the root's inputs and outputs, by number.
ghost use Rattle.std.specs.Prelude.{◌≡◌, IfOk, map};
ghost use Rattle.lustre_expressions.specs.Found.{place_in};
ghost use Rattle.lustre_emitter.specs.RootParts as parts;

use base_core::{Memory, Text};
use emit_row_facts::{input_name, output_name};
use lustre_expressions::{Places, small};
use std::alloc::Global;

/// The name of an output, or else of an input.
pub(crate) fn numbered_text(alloc: Global, output: bool, k: usize) -> Result<Text, Memory>
    ensures { IfOk result (λ t. t ≡ parts.numbered_name output k) }
{
    let k = small(k)?;
    if output {
        output_name(alloc, k)
    } else {
        input_name(alloc, k)
    }
}

/// The places of so many outputs, or else inputs.
pub(crate) fn numbered_places(
    alloc: Global,
    places: &Places,
    outputs: bool,
    count: usize,
) -> Result<Vec<u32>, Memory>
    ensures { IfOk result (λ v. v.items
        ≡ map (place_in places.now) (parts.numbered_names outputs count)) }
{
    let mut found = Vec::new(alloc);
    for k in 0..count {
        let text = numbered_text(alloc, outputs, k + 1)?;
        found.push(places.place(text.bytes()))?;
    }
    Ok(found)
}

ghost use Rattle.std.specs.Prelude.{◌≡◌, ◌++◌, [], IfOk, OnOk, List, slice_get, slice_index_or, option_and_then, option_to_list};
ghost use Rattle.mdl_wiring.specs.Members.{member_seen, members_seen};
ghost use Rattle.mdl_wiring.specs.Lines as lines;
ghost use Rattle.mdl_wiring.specs.Ports as ports;
ghost use Rattle.mdl_wiring.specs.Held.{AreInputsOf, ends_seen};
ghost use Rattle.mdl_wiring.specs.Wiring as wired;

use crate::inputs::{Inputs, end_at};
use crate::lines::LineEnd;
use crate::member::Member;
use crate::ports::{Input, Source, output_at};
use base_core::Memory;
use std::alloc::Global;

/// Where the inputs of the blocks of a system read from, in which nothing is refused.
#[derive(Drop)]
pub struct Wiring {
    /// The sources of each block.
    rows: Vec<Vec<Source>>,
}

impl Wiring {
    /// The sources of the block at a place among the members: of its data inputs by port, then of its enable, then of its
    /// trigger. There are none where there is no such block.
    pub fn sources(&self, member: usize) -> &[Source]
        ensures { result.now ≡ slice_index_or (wired.wiring_seen self.now) member [] }
    {
        match self.rows.as_slice().get(member) {
            Some(sources) => sources.as_slice(),
            None => &[],
        }
    }
}

/// The output from which the line end at a place leads.
fn source_at(ends: &[LineEnd], at: usize) -> Option<Source>
    ensures { result ≡ option_and_then (λ (e : lines.LineEnd). ports.output_at e.source)
        (slice_get (ends_seen ends.now) at) }
{
    match ends.get(at) {
        Some(end) => output_at(&end.source),
        None => None,
    }
}

/// The output from which the first line end leads to an input.
fn source_into(ends: &[LineEnd], inputs: &Inputs, input: Input) -> Option<Source>
    requires { AreInputsOf (ends_seen ends.now) inputs.now }
    ensures { result ≡ wired.source_into (ends_seen ends.now) input }
{
    match end_at(inputs, input) {
        Some(at) => source_at(ends, at),
        None => None,
    }
}

/// Takes a source after those taken before, if it is there.
fn take_source(sources: &mut Vec<Source>, source: Option<Source>) -> Result<(), Memory>
    ensures { OnOk result (sources.new.items ≡ sources.old.items ++ option_to_list source) }
{
    if let Some(source) = source {
        sources.push(source)?;
    }
    Ok(())
}

/// The outputs that the inputs of the block at a place read.
fn sources_of(
    alloc: Global,
    ends: &[LineEnd],
    inputs: &Inputs,
    member: &Member,
    at: usize,
) -> Result<Vec<Source>, Memory>
    requires { AreInputsOf (ends_seen ends.now) inputs.now }
    ensures { IfOk result (λ sources. sources.items
        ≡ wired.sources_of (ends_seen ends.now) at (member_seen member.now)) }
{
    let mut sources = Vec::new(alloc);
    for index in 0..member.shape.port_count() {
        let input = Input {
            member: at,
            number: index + 1,
        };
        take_source(&mut sources, source_into(ends, inputs, input))?;
    }
    Ok(sources)
}

/// Where the inputs of the blocks read from by these line ends.
pub(crate) fn wiring_of(
    alloc: Global,
    members: &[Member],
    ends: &[LineEnd],
    inputs: &Inputs,
) -> Result<Wiring, Memory>
    requires { AreInputsOf (ends_seen ends.now) inputs.now }
    ensures { IfOk result (λ w. wired.wiring_seen w
        ≡ wired.sources_from (ends_seen ends.now) 0 (members_seen members.now)) }
{
    let mut rows = Vec::new(alloc);
    for (at, member) in members.iter().enumerate() {
        rows.push(sources_of(alloc, ends, inputs, member, at)?)?;
    }
    Ok(Wiring { rows })
}

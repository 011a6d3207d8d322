ghost use Rattle.std.specs.Prelude.{◌≡◌, IfOk, IfErr, None, OnOk};
ghost use Rattle.base_refusals.specs.FirstRefusal.{as_plain};
ghost use Rattle.mdl_tree.specs.Values.{section_tree};
ghost use Rattle.mdl_wiring.specs.Members.{members_seen};
ghost use Rattle.mdl_wiring.specs.NameMaps.{AreNamesOf};
ghost use Rattle.mdl_wiring.specs.Lines as written;
ghost use Rattle.mdl_wiring.specs.Refusals as refusals;
ghost use Rattle.mdl_wiring.specs.Held.{AreInputsOf, places_seen, ends_seen};
ghost use Rattle.mdl_wiring.specs.Wiring.{IsFaultBy, IsWiringOf, named_refusal, named_sources, wiring_seen};

use crate::controls::least_double_control;
use crate::doubles::least_double;
use crate::fault::WiringFault;
use crate::inputs::{Inputs, inputs_of, least_second_source};
use crate::lines::{LineEnd, LinePlaces, Place, places_of};
use crate::loose::least_unconnected;
use crate::member::Member;
use crate::missing::{least_without_block, least_without_port};
use crate::names::{Names, names_of};
use crate::wiring::{Wiring, wiring_of};
use base_core::Memory;
use base_refusals::Refusal;
use mdl_tree::Section;
use std::alloc::Global;

/// The first refusal of places that lines name, or else of inputs to which two lines lead.
fn refusal_of_ends(sources: &[Place], ends: &[LineEnd], inputs: &Inputs) -> Option<Refusal>
    requires { AreInputsOf (ends_seen ends.now) inputs.now }
    ensures { as_plain result
        ≡ refusals.ends_refusal (places_seen sources.now) (ends_seen ends.now) }
{
    if let Some(refusal) = least_without_block(sources, ends) {
        return Some(refusal);
    }
    if let Some(refusal) = least_without_port(sources, ends) {
        return Some(refusal);
    }
    least_second_source(ends, inputs)
}

/// The first refusal of inputs to which no line leads, or else of control ports.
fn refusal_of_ports(
    members: &[Member],
    ends: &[LineEnd],
    inputs: &Inputs,
    is_root: bool,
) -> Option<Refusal>
    requires { AreInputsOf (ends_seen ends.now) inputs.now }
    ensures { as_plain result ≡ refusals.ports_refusal is_root (members_seen members.now)
        (ends_seen ends.now) }
{
    match least_unconnected(inputs, members) {
        Some(refusal) => Some(refusal),
        None => least_double_control(is_root, members),
    }
}

/// The first refusal of a system with these sources and ends of lines for how they lead.
fn refusal_of_lines(
    members: &[Member],
    sources: &[Place],
    ends: &[LineEnd],
    inputs: &Inputs,
    is_root: bool,
) -> Option<Refusal>
    requires { AreInputsOf (ends_seen ends.now) inputs.now }
    ensures { as_plain result ≡ refusals.lines_refusal is_root (members_seen members.now)
        (places_seen sources.now) (ends_seen ends.now) }
{
    match refusal_of_ends(sources, ends, inputs) {
        Some(refusal) => Some(refusal),
        None => refusal_of_ports(members, ends, inputs, is_root),
    }
}

/// How the lines with these sources and ends lead, or the first refusal.
fn wire_ends(
    alloc: Global,
    members: &[Member],
    named: &LinePlaces,
    is_root: bool,
) -> Result<Wiring, WiringFault>
    ensures lawful { OnOk result (named_refusal is_root (members_seen members.now) named.now
        ≡ None) }
    ensures sources { IfOk result (λ w. wiring_seen w ≡ named_sources (members_seen members.now) named.now) }
    ensures fault { IfErr result (IsFaultBy (named_refusal is_root (members_seen members.now) named.now)) }
{
    let sources = named.sources.as_slice();
    let ends = named.ends.as_slice();
    let inputs = inputs_of(alloc, ends)?;
    match refusal_of_lines(members, sources, ends, &inputs, is_root) {
        Some(refusal) => Err(WiringFault::Refused(refusal)),
        None => Ok(wiring_of(alloc, members, ends, &inputs)?),
    }
}

/// The places that the lines of a System name.
fn places_in<'a>(
    alloc: Global,
    members: &[Member],
    names: &Names,
    system: &'a Section,
) -> Result<LinePlaces<'a>, Memory>
    requires { AreNamesOf (members_seen members.now) names.now }
    ensures sources { IfOk result (λ named. places_seen named.sources.items
        ≡ written.sources_in (members_seen members.now) (section_tree system.now).items) }
    ensures ends { IfOk result (λ named. ends_seen named.ends.items
        ≡ written.ends_in (members_seen members.now) (section_tree system.now).items) }
{
    let lines = system.sections_named(alloc, b"Line")?;
    let named = places_of(alloc, members, names, lines.as_slice())?;
    Ok(named)
}

/// How the lines of a System lead between its blocks. `members` are all its blocks as lines see them, in the order of the
/// file, and `is_root` says whether it is the system of the model itself.
///
/// Fails with `Refused` exactly where the system has one of these errors: `DoubleName` at a block with the name of an earlier
/// one, or the port of one where both are Inports or both are Outports; `NoBlock` and `NoPort` at a place that a line names;
/// `TwoSources` at the later of two line ends at one input; `Unconnected` at an input without a line; `TwoControls` at the
/// second EnablePort, the second TriggerPort, or any of them where this is the root. Of several the first in this order is
/// reported, and of one kind that with the least line.
pub fn wire(
    alloc: Global,
    members: &[Member],
    system: &Section,
    is_root: bool,
) -> Result<Wiring, WiringFault>
    ensures wiring { IfOk result
        (IsWiringOf is_root (members_seen members.now) (section_tree system.now).items) }
    ensures fault { IfErr result
        (IsFaultBy
        (refusals.wiring_refusal is_root (members_seen members.now)
        (section_tree system.now).items)) }
{
    let names = names_of(alloc, members)?;
    if let Some(refusal) = least_double(alloc, members, &names)? {
        return Err(WiringFault::Refused(refusal));
    }
    let named = places_in(alloc, members, &names, system)?;
    wire_ends(alloc, members, &named, is_root)
}

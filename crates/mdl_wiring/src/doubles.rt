ghost use Rattle.std.specs.Prelude.{◌≡◌, IfOk, OnOk};
ghost use Rattle.base_refusals.specs.FirstRefusal.{as_plain};
ghost use Rattle.mdl_wiring.specs.Members.{members_seen, member_seen};
ghost use Rattle.mdl_wiring.specs.NameMaps.{AreNamesOf};
ghost use Rattle.mdl_wiring.specs.Refusals as refusals;
ghost use Rattle.mdl_wiring.specs.Doubles as doubles;

use crate::member::{Member, Shape};
use crate::names::{Names, is_before, place_of};
use base_core::Memory;
use base_refusals::{Refusal, earlier};
use indexmap::IndexSet;
use std::alloc::Global;

/// A side of a system, on which its ports have numbers of their own.
#[derive(Clone, Copy, Debug, PartialEq, Eq, Drop)]
pub(crate) enum Side {
    Input,
    Output,
}

/// The port that a block gives its system on a side.
fn port_on(side: Side, shape: Shape) -> Option<u32>
    ensures { result ≡ refusals.port_on side shape }
{
    match (side, shape) {
        (Side::Input, Shape::Inport { port }) => Some(port),
        (Side::Output, Shape::Outport { port }) => Some(port),
        _ => None,
    }
}

/// The refusal of a block that may be like an earlier one.
fn double_found(member: &Member, is_double: bool) -> Option<Refusal>
    ensures { as_plain result ≡ doubles.double_found (member_seen member.now) is_double }
{
    if is_double {
        Some(Refusal::DoubleName { line: member.line })
    } else {
        None
    }
}

/// The refusal of the block at a place, where an earlier one has its name.
fn double_name(members: &[Member], names: &Names, member: &Member, at: usize) -> Option<Refusal>
    requires { AreNamesOf (members_seen members.now) names.now }
    ensures { as_plain result ≡ refusals.double refusals.same_name (members_seen members.now) at
        (member_seen member.now) }
{
    let is_double = is_before(place_of(names, member.name), at);
    double_found(member, is_double)
}

/// The first block with the name of an earlier one.
fn least_double_name(members: &[Member], names: &Names) -> Option<Refusal>
    requires { AreNamesOf (members_seen members.now) names.now }
    ensures { as_plain result
        ≡ refusals.first_double refusals.same_name (members_seen members.now) }
{
    let mut least = None;
    for (at, member) in members.iter().enumerate() {
        least = earlier(least, double_name(members, names, member, at));
    }
    least
}

/// Takes a port, if it is there, and says whether it was taken before.
fn take_port(ports: &mut IndexSet<u32>, port: Option<u32>) -> Result<bool, Memory>
    ensures before { IfOk result (λ before. before ≡ doubles.is_taken ports.old port) }
    ensures taken { OnOk result (doubles.Takes ports.old ports.new port) }
{
    match port {
        Some(port) => Ok(!ports.insert(port)?),
        None => Ok(false),
    }
}

/// The refusal of a block with the port of one of those before it on this side, whose ports are these. Its own is taken.
fn double_port(
    ports: &mut IndexSet<u32>,
    side: Side,
    member: &Member,
) -> Result<Option<Refusal>, Memory>
    ensures found { IfOk result (λ r. doubles.IsToldOf side ports.old (member_seen member.now) (as_plain r)) }
    ensures taken { OnOk result (doubles.Takes ports.old ports.new (refusals.port_on side member.now.shape)) }
{
    let is_double = take_port(ports, port_on(side, member.shape))?;
    Ok(double_found(member, is_double))
}

/// The first block with the port of an earlier one on this side.
fn least_double_port(
    alloc: Global,
    members: &[Member],
    side: Side,
) -> Result<Option<Refusal>, Memory>
    ensures { IfOk result (λ r. as_plain r
        ≡ refusals.first_double (refusals.same_port side) (members_seen members.now)) }
{
    let mut ports = IndexSet::new(alloc);
    let mut least = None;
    for member in members {
        least = earlier(least, double_port(&mut ports, side, member)?);
    }
    Ok(least)
}

/// The first block with the name, or the port, of an earlier one.
pub(crate) fn least_double(
    alloc: Global,
    members: &[Member],
    names: &Names,
) -> Result<Option<Refusal>, Memory>
    requires { AreNamesOf (members_seen members.now) names.now }
    ensures { IfOk result (λ r. as_plain r ≡ refusals.double_names (members_seen members.now)) }
{
    let name = least_double_name(members, names);
    let input = least_double_port(alloc, members, Side::Input)?;
    let output = least_double_port(alloc, members, Side::Output)?;
    Ok(earlier(name, earlier(input, output)))
}

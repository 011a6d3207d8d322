ghost use Rattle.std.specs.Prelude.{◌≡◌};
ghost use Rattle.base_refusals.specs.FirstRefusal.{as_plain, found_where, least_in};
ghost use Rattle.mdl_wiring.specs.Members.{member_seen, members_seen};
ghost use Rattle.mdl_wiring.specs.Refusals as refusals;

use crate::member::{Member, Shape};
use base_refusals::{Refusal, earlier};

/// A control of a subsystem.
#[derive(Clone, Copy, Debug, PartialEq, Eq, Drop)]
pub(crate) enum Control {
    Enable,
    Trigger,
}

/// Whether a block is the port of a control.
fn is_port_of(control: Control, shape: Shape) -> bool
    ensures { result ≡ refusals.is_port_of control shape }
{
    match control {
        Control::Enable => matches!(shape, Shape::EnablePort),
        Control::Trigger => matches!(shape, Shape::TriggerPort),
    }
}

/// The second port of one control.
fn second_control(control: Control, members: &[Member]) -> Option<Refusal>
    ensures { as_plain result ≡ refusals.second_control control (members_seen members.now) }
{
    let mut has_one = false;
    for member in members {
        if is_port_of(control, member.shape) {
            if has_one {
                return Some(Refusal::TwoControls { line: member.line });
            }
            has_one = true;
        }
    }
    None
}

/// The refusal of a control port in the root.
fn control_found(member: &Member) -> Option<Refusal>
    ensures { as_plain result
        ≡ found_where refusals.is_control refusals.control_port (member_seen member.now) }
{
    let shape = member.shape;
    if is_port_of(Control::Enable, shape) || is_port_of(Control::Trigger, shape) {
        Some(Refusal::TwoControls { line: member.line })
    } else {
        None
    }
}

/// The first control port.
fn least_control(members: &[Member]) -> Option<Refusal>
    ensures { as_plain result ≡ least_in (found_where refusals.is_control refusals.control_port)
        (members_seen members.now) }
{
    let mut least = None;
    for member in members {
        least = earlier(least, control_found(member));
    }
    least
}

/// The first control port that a system may not have: any in the root, elsewhere the second of each kind.
pub(crate) fn least_double_control(is_root: bool, members: &[Member]) -> Option<Refusal>
    ensures { as_plain result ≡ refusals.double_controls is_root (members_seen members.now) }
{
    if is_root {
        least_control(members)
    } else {
        earlier(
            second_control(Control::Enable, members),
            second_control(Control::Trigger, members),
        )
    }
}

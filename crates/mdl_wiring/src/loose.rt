ghost use Rattle.std.specs.Prelude.{◌≡◌, List, find};
ghost use Rattle.base_refusals.specs.FirstRefusal.{as_plain};
ghost use Rattle.mdl_wiring.specs.Members.{member_seen, members_seen};
ghost use Rattle.mdl_wiring.specs.Lines as lines;
ghost use Rattle.mdl_wiring.specs.Refusals as refusals;
ghost use Rattle.mdl_wiring.specs.Held.{AreInputsOf};

use crate::inputs::{Inputs, end_at};
use crate::member::Member;
use crate::ports::Input;
use base_refusals::{Refusal, earlier};

/// The number of the first input of the block at a place to which no line leads.
fn loose_input(inputs: &Inputs, member: &Member, at: usize) -> Option<u64>
    ensures { (ends : List lines.LineEnd) → AreInputsOf ends inputs.now →
        result ≡ find (refusals.is_loose ends at) (refusals.numbers_of (member_seen member.now)) }
{
    for index in 0..member.shape.port_count() {
        let input = Input {
            member: at,
            number: index + 1,
        };
        if end_at(inputs, input).is_none() {
            return Some(index + 1);
        }
    }
    None
}

/// The refusal of the block at a place for the first of its inputs to which no line leads.
fn unconnected(inputs: &Inputs, member: &Member, at: usize) -> Option<Refusal>
    ensures { (ends : List lines.LineEnd) → AreInputsOf ends inputs.now →
        as_plain result ≡ refusals.unconnected ends at (member_seen member.now) }
{
    match loose_input(inputs, member, at) {
        Some(number) => Some(Refusal::Unconnected {
            line: member.line,
            port: member.shape.port_numbered(number),
        }),
        None => None,
    }
}

/// The first input to which no line leads.
pub(crate) fn least_unconnected(inputs: &Inputs, members: &[Member]) -> Option<Refusal>
    ensures { (ends : List lines.LineEnd) → AreInputsOf ends inputs.now →
        as_plain result ≡ refusals.unconnected_ports ends (members_seen members.now) }
{
    let mut least = None;
    for (at, member) in members.iter().enumerate() {
        least = earlier(least, unconnected(inputs, member, at));
    }
    least
}

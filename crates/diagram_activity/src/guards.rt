ghost use Rattle.std.specs.Prelude.{◌≡◌};
ghost use Rattle.diagram_activity.specs.Activity as guard;

use crate::memory::TrigMem;
use base_core::{Control, Edge};

/// Whether an event occurs: the trigger was low and is above 0, was high and isn't, or either, by what it waits for. There
/// is none while it remembers nothing yet (Simulink reference, Trigger block).
pub fn edge(e: Edge, memory: TrigMem, trigger: i64) -> bool
    ensures { result ≡ guard.edge e memory trigger }
{
    match (e, memory) {
        (Edge::Rising, TrigMem::Low) => trigger > 0,
        (Edge::Falling, TrigMem::High) => trigger <= 0,
        (Edge::Either, TrigMem::Low) => trigger > 0,
        (Edge::Either, TrigMem::High) => trigger <= 0,
        _ => false,
    }
}

/// Whether a subsystem is active, given whether the system around it is. With an enable it is so where that is above 0,
/// with a trigger where an event occurs, with both where both hold. A control that it doesn't have isn't read, nor is the
/// memory without a trigger.
pub fn active(parent: bool, c: &Control, memory: TrigMem, enable: i64, trigger: i64) -> bool
    ensures { result ≡ guard.active parent c.now memory enable trigger }
{
    match c {
        Control::Plain => parent,
        Control::Enabled { reset: _ } => parent && enable > 0,
        Control::Triggered(e) => parent && edge(*e, memory, trigger),
        Control::Both { reset: _, edge: e } => parent && enable > 0 && edge(*e, memory, trigger),
    }
}

/// Whether a subsystem is disabled in an active system and loses its states by that: it has an enable, it resets, and its
/// enable isn't above 0 (Simulink reference, Enable block, States when enabling).
pub fn off(parent: bool, c: &Control, enable: i64) -> bool
    ensures { result ≡ guard.off parent c.now enable }
{
    match c {
        Control::Plain | Control::Triggered(_) => false,
        Control::Enabled { reset } | Control::Both { reset, edge: _ } => {
            *reset && parent && enable <= 0
        }
    }
}

/// What a trigger remembers after a tick: its level, whatever an enable beside it says, and what it remembered before where
/// the system around its subsystem rests.
pub fn next_memory(parent: bool, memory: TrigMem, trigger: i64) -> TrigMem
    ensures { result ≡ guard.next_memory parent memory trigger }
{
    if !parent {
        memory
    } else if trigger > 0 {
        TrigMem::High
    } else {
        TrigMem::Low
    }
}

use base_core::{Control, Edge};
use diagram_activity::{TrigMem, active, edge, next_memory, off};

const RISING: Edge = Edge::Rising;

const FALLING: Edge = Edge::Falling;

const EITHER: Edge = Edge::Either;

#[test]
fn an_edge_is_a_change(rt: HostRuntime) {
    for &(waits_for, memory, value, stands) in &[
        (RISING, TrigMem::NotYet, 1, false),
        (RISING, TrigMem::Low, 1, true),
        (RISING, TrigMem::Low, 0, false),
        (FALLING, TrigMem::High, 0, true),
        (FALLING, TrigMem::High, -1, true),
        (FALLING, TrigMem::Low, 0, false),
        (EITHER, TrigMem::Low, 3, true),
        (EITHER, TrigMem::High, 0, true),
        (EITHER, TrigMem::High, 1, false),
        (EITHER, TrigMem::NotYet, 0, false),
    ] {
        assert_eq!(rt; edge(waits_for, memory, value), stands);
    }
}

#[test]
fn only_a_disabled_subsystem_that_resets_is_off(rt: HostRuntime) {
    let resets = Control::Enabled { reset: true };
    let holds = Control::Enabled { reset: false };
    let are_off = [
        off(true, &resets, 0),
        off(true, &resets, 1),
        off(false, &resets, 0),
        off(true, &holds, 0),
        off(true, &Control::Plain, 0),
    ];
    let are_active = [
        active(true, &holds, TrigMem::NotYet, 1, 0),
        active(false, &holds, TrigMem::NotYet, 1, 0),
        active(true, &Control::Plain, TrigMem::NotYet, 0, 0),
    ];
    assert_eq!(rt;
        (are_off, are_active, next_memory(false, TrigMem::Low, 1)),
        (
            [true, false, false, false, false],
            [true, false, true],
            TrigMem::Low
        )
    );
}

/// A trigger that waits for a rise.
const TRIGGERED: Control = Control::Triggered(Edge::Rising);

/// An enable that resets, and such a trigger.
const BOTH: Control = Control::Both {
    reset: true,
    edge: Edge::Rising,
};

#[test]
fn rises_over_ticks(rt: HostRuntime) {
    // A trigger of 1, 0, 1, 1 has one rise, and one that waits for a rise holds at that tick alone.
    let mut memory = TrigMem::NotYet;
    for &(value, stands) in &[(1, false), (0, false), (1, true), (1, false)] {
        assert_eq!(rt; active(true, &TRIGGERED, memory, 0, value), stands);
        memory = next_memory(true, memory, value);
    }
    // The enable and the rising trigger of a subsystem with both over seven ticks. A rise while it is disabled is lost, and so
    // is one that comes before the trigger was seen low.
    let mut memory = TrigMem::NotYet;
    for &(enable, trigger, stands, is_off) in &[
        (1, 0, false, false),
        (1, 1, true, false),
        (0, 0, false, true),
        (0, 1, false, true),
        (1, 1, false, false),
        (1, 0, false, false),
        (1, 1, true, false),
    ] {
        let is_active = active(true, &BOTH, memory, enable, trigger);
        assert_eq!(rt; (is_active, off(true, &BOTH, enable)), (stands, is_off));
        memory = next_memory(true, memory, trigger);
    }
}

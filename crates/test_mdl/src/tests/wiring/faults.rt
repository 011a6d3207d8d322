use super::{controlled, is_answered, member, sum};
use mdl_wiring::Shape;
use std::test::Fail;

/// The lines of the sum: each is six lines of text, from 2, 8 and 14 on.
const SUMMING: &str = "a 1 > p 1; b 1 > p 2; p 1 > y 1";

// What lines of a sum name, its inputs, and the order of two refusals.
const LINES_OF_A_SUM: &[(&str, &str)] = &[
    (SUMMING, "lawful\n"),
    ("z 1 > p 1", "refused F10 NoBlock line 2\n"),
    ("a 3 > p 1; a 1 > z 1", "refused F10 NoBlock line 8\n"),
    (
        "Line { / SrcBlock z / SrcPort 1 / }",
        "refused F10 NoBlock line 2\n",
    ),
    (
        "Line { / SrcBlock a / SrcPort 1 / Branch { / DstBlock z / DstPort 1 / } / }",
        "refused F10 NoBlock line 5\n",
    ),
    ("a 2 > p 1", "refused F11 NoPort line 2\n"),
    ("a 1 > p 3", "refused F11 NoPort line 2\n"),
    ("a 1 > p 0", "refused F11 NoPort line 2\n"),
    ("a > p 1", "refused F11 NoPort line 2\n"),
    ("a 1 > b 1", "refused F11 NoPort line 2\n"),
    ("y 1 > p 1", "refused F11 NoPort line 2\n"),
    ("a 1 > p enable", "refused F11 NoPort line 2\n"),
    ("a 1 > p 1; b 1 > p 1", "refused F12 TwoSources line 8\n"),
    (
        "a 1 > p 1; b 1 > p 2",
        "refused F13 Unconnected line 40 port 1\n",
    ),
    (
        "p 1 > y 1; b 1 > p 2",
        "refused F13 Unconnected line 30 port 1\n",
    ),
    (
        "p 1 > y 1; a 1 > p 1",
        "refused F13 Unconnected line 30 port 2\n",
    ),
];

// Both controls of a subsystem.
const LINES_TO_CONTROLS: &[(&str, &str)] = &[
    (
        "s 2 > y 1; a 1 > s 1; a 1 > s trigger; a 1 > s enable",
        "lawful\n",
    ),
    (
        "s 2 > y 1; a 1 > s 1; a 1 > s trigger",
        "refused F13 Unconnected line 20 port enable\n",
    ),
    (
        "s 2 > y 1; a 1 > s 1; a 1 > s enable",
        "refused F13 Unconnected line 20 port trigger\n",
    ),
    (
        "s 2 > y 1; a 1 > s enable; a 1 > s enable",
        "refused F12 TwoSources line 14\n",
    ),
    ("s 3 > y 1", "refused F11 NoPort line 2\n"),
    ("a 1 > s 2", "refused F11 NoPort line 2\n"),
];

#[test]
fn lines_between_blocks(rt: HostRuntime) -> Result<(), Fail> {
    for &(lines, expected) in LINES_OF_A_SUM {
        is_answered(rt.alloc(), &sum(), lines, true, expected)?;
    }
    for &(lines, expected) in LINES_TO_CONTROLS {
        is_answered(rt.alloc(), &controlled(), lines, true, expected)?;
    }
    Ok(())
}

/// A block without inputs.
const BLOCK: Shape = Shape::Plain {
    inputs: 0,
    output: true,
};

// A block after those of the sum: of one name or one port with another, which is of one side alone.
#[test]
fn names_and_ports_of_blocks(rt: HostRuntime) -> Result<(), Fail> {
    let [a, b, p, y] = sum();
    for &(name, shape, expected) in &[
        ("c", BLOCK, "lawful\n"),
        ("a", BLOCK, "refused F9 DoubleName line 80\n"),
        (
            "c",
            Shape::Inport { port: 2 },
            "refused F9 DoubleName line 80\n",
        ),
        ("c", Shape::Inport { port: 3 }, "lawful\n"),
        (
            "c",
            Shape::Outport { port: 1 },
            "refused F9 DoubleName line 80\n",
        ),
    ] {
        let members = [a, b, p, y, member(name, 80, shape)];
        is_answered(rt.alloc(), &members, SUMMING, true, expected)?;
    }
    Ok(())
}

const ENABLE: Shape = Shape::EnablePort;

const TRIGGER: Shape = Shape::TriggerPort;

// The second of a kind, and any in the root.
#[test]
fn control_ports(rt: HostRuntime) -> Result<(), Fail> {
    for &([first, second, third], is_root, expected) in &[
        ([ENABLE, TRIGGER, BLOCK], false, "lawful\n"),
        (
            [ENABLE, TRIGGER, ENABLE],
            false,
            "refused F14 TwoControls line 30\n",
        ),
        (
            [TRIGGER, TRIGGER, TRIGGER],
            false,
            "refused F14 TwoControls line 20\n",
        ),
        (
            [BLOCK, TRIGGER, ENABLE],
            true,
            "refused F14 TwoControls line 20\n",
        ),
    ] {
        let members = [
            member("a", 10, first),
            member("b", 20, second),
            member("c", 30, third),
        ];
        is_answered(rt.alloc(), &members, "", is_root, expected)?;
    }
    Ok(())
}

use super::answer;
use std::test::Fail;
use test_models::at_both_depths;

// Lines between two blocks, from 11 on.
const BLOCKS: &str = "Ground a; Terminator b; _";

const LINES: &[(&str, &str, &str)] = &[
    // Ports that a Ground and a Terminator haven't.
    (
        "a 2 > b 1",
        "refused F11 NoPort line 11",
        "refused F11 NoPort line 15",
    ),
    (
        "a 1 > b 2",
        "refused F11 NoPort line 11",
        "refused F11 NoPort line 15",
    ),
    (
        "a 1 > b 0",
        "refused F11 NoPort line 11",
        "refused F11 NoPort line 15",
    ),
    (
        "a 1 > b",
        "refused F11 NoPort line 11",
        "refused F11 NoPort line 15",
    ),
    (
        "a 1 > b enable",
        "refused F11 NoPort line 11",
        "refused F11 NoPort line 15",
    ),
    (
        "b 1 > b 1",
        "refused F11 NoPort line 11",
        "refused F11 NoPort line 15",
    ),
    (
        "a 3 > b 1; a 2 > b 1",
        "refused F11 NoPort line 11",
        "refused F11 NoPort line 15",
    ),
    // A second end at one input: of another line, of a branch, which opens after its line whatever is written first, and at a
    // control.
    (
        "a 1 > b 1; a 1 > b 1; a 1 > b 1",
        "refused F12 TwoSources line 17",
        "refused F12 TwoSources line 21",
    ),
    (
        "Line { / SrcBlock a / SrcPort 1 / Branch { / DstBlock b / DstPort 1 / } / DstBlock b / DstPort 1 / }",
        "refused F12 TwoSources line 14",
        "refused F12 TwoSources line 18",
    ),
    (
        "SubSystem s {; EnablePort e; TriggerPort t; }; a 1 > s trigger; a 1 > s enable; a 1 > s enable",
        "refused F12 TwoSources line 37",
        "refused F12 TwoSources line 41",
    ),
];

// Lines at 21. A subsystem has the ports of its Inports, its Outports and its control ports.
const SUBSYSTEM: &str = "Ground a; Terminator b; SubSystem s {; _; }; _";

const PORTS_THAT_A_SUBSYSTEM_MISSES: &[(&str, &str, &str)] = &[
    (
        "Ground h | a 1 > s 1",
        "refused F11 NoPort line 21",
        "refused F11 NoPort line 25",
    ),
    (
        "Ground h | s 1 > b 1",
        "refused F11 NoPort line 21",
        "refused F11 NoPort line 25",
    ),
    (
        "TriggerPort h | a 1 > s enable",
        "refused F11 NoPort line 21",
        "refused F11 NoPort line 25",
    ),
    (
        "EnablePort h | a 1 > s trigger",
        "refused F11 NoPort line 21",
        "refused F11 NoPort line 25",
    ),
];

// An input without a line, one of a line without a source, a second input, and controls, first the enable; of two blocks
// the first.
const INPUTS_WITHOUT_A_LINE: &[(&str, &str, &str)] = &[
    (
        "Ground a; Terminator b; Terminator c; a 1 > c 1",
        "refused F13 Unconnected line 7 port 1",
        "refused F13 Unconnected line 11 port 1",
    ),
    (
        "Ground a; Terminator b; Line { / DstBlock b / DstPort 1 / }",
        "refused F13 Unconnected line 7 port 1",
        "refused F13 Unconnected line 11 port 1",
    ),
    (
        "Ground a; Sum b; a 1 > b 1; Terminator c",
        "refused F13 Unconnected line 7 port 2",
        "refused F13 Unconnected line 11 port 2",
    ),
    (
        "SubSystem s {; Inport x; TriggerPort t; EnablePort e; }; Ground a; a 1 > s 1",
        "refused F13 Unconnected line 3 port enable",
        "refused F13 Unconnected line 7 port enable",
    ),
    (
        "SubSystem s {; Inport x; TriggerPort t; EnablePort e; }; Ground a; a 1 > s enable",
        "refused F13 Unconnected line 3 port 1",
        "refused F13 Unconnected line 7 port 1",
    ),
    (
        "SubSystem s {; Inport x; TriggerPort t; EnablePort e; }; Ground a; a 1 > s enable; a 1 > s 1",
        "refused F13 Unconnected line 3 port trigger",
        "refused F13 Unconnected line 7 port trigger",
    ),
];

#[test]
fn ends_of_lines(rt: HostRuntime) -> Result<(), Fail> {
    at_both_depths(rt.alloc(), &answer, BLOCKS, LINES)?;
    at_both_depths(
        rt.alloc(),
        &answer,
        SUBSYSTEM,
        PORTS_THAT_A_SUBSYSTEM_MISSES,
    )?;
    at_both_depths(rt.alloc(), &answer, "_", INPUTS_WITHOUT_A_LINE)
}

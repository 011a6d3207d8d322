use super::are_told;
use std::test::Fail;

const NUMBERS: &[(&str, &str)] = &[
    // The deepest that may be, one that may not, the first of two such, and one before a crowd of ports in the root.
    ("32 * SubSystem s {; 32 * }", "read\n"),
    (
        "33 * SubSystem s {; 33 * }",
        "refused F5 TooDeep line 131\n",
    ),
    (
        "34 * SubSystem s {; 34 * }",
        "refused F5 TooDeep line 131\n",
    ),
    (
        "33 * SubSystem s {; 33 * }; 33 * Inport i",
        "refused F5 TooDeep line 131\n",
    ),
    // The first block too many opens at line 3 + 4 * 20,000, and the ports of the root are too many as well.
    ("20000 * Ground g", "read\n"),
    (
        "20002 * Ground g",
        "refused F6 TooMany line 80003 Blocks 20002\n",
    ),
    (
        "20001 * Inport i",
        "refused F6 TooMany line 80003 Blocks 20001\n",
    ),
    // The blocks inside a subsystem count too: the first too many is after it, four lines and two lower.
    ("SubSystem s {; 19999 * Ground g; }", "read\n"),
    (
        "SubSystem s {; 19999 * Ground g; }; Ground h",
        "refused F6 TooMany line 80005 Blocks 20001\n",
    ),
    // Ports in the root, whose System opens at line 2, and in a subsystem at line 3.
    ("32 * Inport i; 32 * Outport o", "read\n"),
    ("SubSystem s {; 32 * Inport i; 32 * Outport o; }", "read\n"),
    ("33 * Inport i", "refused F6 TooMany line 2 Inports 33\n"),
    (
        "SubSystem s {; 33 * Inport i; }",
        "refused F6 TooMany line 3 Inports 33\n",
    ),
    ("34 * Outport o", "refused F6 TooMany line 2 Outports 34\n"),
    (
        "SubSystem s {; 34 * Outport o; }",
        "refused F6 TooMany line 3 Outports 34\n",
    ),
    (
        "33 * Inport i; 34 * Outport o",
        "refused F6 TooMany line 2 Inports 33\n",
    ),
    (
        "SubSystem s {; 33 * Inport i; 34 * Outport o; }",
        "refused F6 TooMany line 3 Inports 33\n",
    ),
    // The crowd at the lesser line is reported, and before a block that isn't read.
    (
        "Scope z; SubSystem s {; 33 * Inport i; }",
        "refused F6 TooMany line 7 Inports 33\n",
    ),
    (
        "Scope z; SubSystem s {; 33 * Inport i; }; 33 * Outport o",
        "refused F6 TooMany line 2 Outports 33\n",
    ),
];

#[test]
fn numbers_of_blocks(rt: HostRuntime) -> Result<(), Fail> {
    are_told(rt.alloc(), NUMBERS)
}

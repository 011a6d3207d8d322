use super::answer;
use std::test::Fail;
use test_models::at_both_depths;

// Any control port of the root, which a subsystem may have; of two the first.
const PORTS_OF_THE_ROOT: &[(&str, &str, &str)] = &[
    (
        "Ground g; EnablePort e",
        "refused F14 TwoControls line 7",
        "refused F13 Unconnected line 3 port enable",
    ),
    (
        "TriggerPort t",
        "refused F14 TwoControls line 3",
        "refused F13 Unconnected line 3 port trigger",
    ),
    (
        "Ground g; TriggerPort t; EnablePort e",
        "refused F14 TwoControls line 7",
        "refused F13 Unconnected line 3 port enable",
    ),
];

// The second port of one control, in a subsystem whose blocks begin at line 11.
const SUBSYSTEM: &str = "Ground g; SubSystem s {; _; }; _";

const PORTS_OF_A_SUBSYSTEM: &[(&str, &str, &str)] = &[
    (
        "TriggerPort t; EnablePort e | g 1 > s enable; g 1 > s trigger",
        "accepted",
        "accepted",
    ),
    (
        "EnablePort e; EnablePort f; EnablePort h | g 1 > s enable",
        "refused F14 TwoControls line 15",
        "refused F14 TwoControls line 19",
    ),
    (
        "TriggerPort t; TriggerPort u | g 1 > s trigger",
        "refused F14 TwoControls line 15",
        "refused F14 TwoControls line 19",
    ),
    (
        "EnablePort e; TriggerPort t; TriggerPort u; EnablePort f | g 1 > s enable; g 1 > s trigger",
        "refused F14 TwoControls line 19",
        "refused F14 TwoControls line 23",
    ),
];

#[test]
fn control_ports(rt: HostRuntime) -> Result<(), Fail> {
    at_both_depths(rt.alloc(), &answer, "_", PORTS_OF_THE_ROOT)?;
    at_both_depths(rt.alloc(), &answer, SUBSYSTEM, PORTS_OF_A_SUBSYSTEM)
}

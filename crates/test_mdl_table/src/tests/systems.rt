use super::answer;
use std::test::Fail;
use test_models::in_root;

// The lesser number comes first, and then the lesser line, in whatever system it is: the blocks of a subsystem begin at
// line 11, and what is after it at line 17 or later.
const SYSTEMS: &str = "Ground g; SubSystem s {; _; }; _";

const REFUSALS: &[(&str, &str)] = &[
    (
        "Ground h; Ground h | g 1 > z 1",
        "refused F9 DoubleName line 15",
    ),
    (
        "Constant c | Terminator t",
        "refused F13 Unconnected line 17 port 1",
    ),
    (
        "Terminator t | Terminator u",
        "refused F13 Unconnected line 11 port 1",
    ),
    (
        "Constant c | Constant d SampleTime=0",
        "refused F15 Continuous line 17",
    ),
];

#[test]
fn the_first_refusal_of_all_systems(rt: HostRuntime) -> Result<(), Fail> {
    in_root(rt.alloc(), &answer, SYSTEMS, REFUSALS)
}

use super::answer;
use std::test::Fail;
use test_models::at_both_depths;

const REFUSALS: &[(&str, &str, &str)] = &[
    // Of two refusals the one of the lesser number, although the other's line is before: blocks and lines.
    (
        "Ground; Scope b",
        "refused F7 Unsupported line 6",
        "refused F7 Unsupported line 10",
    ),
    (
        "Ground a; Ground a; Gain b Gain=x",
        "refused F8 Parameter line 11 Gain",
        "refused F8 Parameter line 15 Gain",
    ),
    (
        "z 1 > z 1; Ground a; Ground a",
        "refused F9 DoubleName line 13",
        "refused F9 DoubleName line 17",
    ),
    (
        "Ground a; Terminator b; a 2 > b 1; a 1 > z 1",
        "refused F10 NoBlock line 17",
        "refused F10 NoBlock line 21",
    ),
    // The same of inputs, controls, periods and types.
    (
        "Ground a; Sum b; a 1 > b 1; a 1 > b 1; a 1 > b 3",
        "refused F11 NoPort line 23",
        "refused F11 NoPort line 27",
    ),
    (
        "Terminator b; Ground a; Terminator c; a 1 > c 1; a 1 > c 1",
        "refused F12 TwoSources line 21",
        "refused F12 TwoSources line 25",
    ),
    (
        "SubSystem t {; EnablePort e; EnablePort f; }; Ground g; Terminator b; g 1 > t enable",
        "refused F13 Unconnected line 21 port 1",
        "refused F13 Unconnected line 25 port 1",
    ),
    (
        "Constant c SampleTime=0; SubSystem t {; EnablePort e; EnablePort f; }; Ground g; g 1 > t enable",
        "refused F14 TwoControls line 16",
        "refused F14 TwoControls line 20",
    ),
    (
        "Constant a; Constant b SampleTime=0",
        "refused F15 Continuous line 7",
        "refused F15 Continuous line 11",
    ),
];

#[test]
fn refusals_in_order(rt: HostRuntime) -> Result<(), Fail> {
    at_both_depths(rt.alloc(), &answer, "_", REFUSALS)
}

use super::answer;
use std::test::Fail;
use test_models::at_both_depths;

// A name or a port that occurs twice, reported at the later of the first two such.
const NAMES_AND_PORTS: &[(&str, &str, &str)] = &[
    (
        "Ground a; SubSystem b {; Ground a; Ground b; }",
        "accepted",
        "accepted",
    ),
    (
        "Terminator a; Ground a",
        "refused F9 DoubleName line 7",
        "refused F9 DoubleName line 11",
    ),
    (
        "Ground a; Ground b; Ground b; Ground a",
        "refused F9 DoubleName line 11",
        "refused F9 DoubleName line 15",
    ),
    (
        "SubSystem a {; Ground b; Ground b; }; Ground a",
        "refused F9 DoubleName line 11",
        "refused F9 DoubleName line 15",
    ),
    (
        "Inport a; Outport b; Outport c; Inport d Port=1",
        "refused F9 DoubleName line 11",
        "refused F9 DoubleName line 15",
    ),
];

// Blocks that lines name and the System hasn't, also where no end is written; reported at the line or the branch.
const BLOCKS: &str = "Ground a; Terminator b; _";

const BLOCKS_THAT_LINES_NAME: &[(&str, &str, &str)] = &[
    ("a 1 > b 1", "accepted", "accepted"),
    (
        "z 1 > b 1",
        "refused F10 NoBlock line 11",
        "refused F10 NoBlock line 15",
    ),
    (
        "a 1 > b 1; Line { / SrcBlock z / SrcPort 1 / }",
        "refused F10 NoBlock line 17",
        "refused F10 NoBlock line 21",
    ),
    (
        "Line { / SrcBlock a / SrcPort 1 / Branch { / DstBlock z / DstPort 1 / } / }; z 1 > b 1",
        "refused F10 NoBlock line 14",
        "refused F10 NoBlock line 18",
    ),
    (
        "SubSystem s {; Ground c; }; c 1 > b 1",
        "refused F10 NoBlock line 21",
        "refused F10 NoBlock line 25",
    ),
];

#[test]
fn names_of_blocks(rt: HostRuntime) -> Result<(), Fail> {
    at_both_depths(rt.alloc(), &answer, "_", NAMES_AND_PORTS)?;
    at_both_depths(rt.alloc(), &answer, BLOCKS, BLOCKS_THAT_LINES_NAME)
}

use super::are_told;
use std::test::Fail;

// Blocks and lines that aren't read, in the root and in a subsystem, and parameters out of form, which come after them.
const BLOCKS: &[(&str, &str)] = &[
    (
        "Block { / BlockType SubSystem / Name s / System { / Block { / BlockType Inport / Name x / } / } / } / Block { / BlockType Ground / Name g / }",
        "read\n",
    ),
    ("Block { / Name b / }", "refused F7 Unsupported line 3\n"),
    (
        "Block { / BlockType Scope / Name b / }",
        "refused F7 Unsupported line 3\n",
    ),
    (
        "Block { / BlockType SubSystem / Name s / }",
        "refused F7 Unsupported line 3\n",
    ),
    (
        "Line { / Branch { / Dst b / } / } / Block { / BlockType Scope / }",
        "refused F7 Unsupported line 4\n",
    ),
    (
        "Block { / BlockType SubSystem / Name s / System { / Line { / Src b / } / } / }",
        "refused F7 Unsupported line 7\n",
    ),
    (
        "Block { / BlockType SubSystem / Name s / System { / Block { / BlockType Scope / } / } / }",
        "refused F7 Unsupported line 7\n",
    ),
    (
        "Block { / BlockType Ground / }",
        "refused F8 Parameter line 3 Name\n",
    ),
    (
        "Block { / BlockType Inport / Name x / Port 2 / }",
        "refused F8 Parameter line 3 Port\n",
    ),
    (
        "Block { / BlockType SubSystem / Name s / System { / Block { / BlockType Gain / Name k / Gain one / } / } / }",
        "refused F8 Parameter line 7 Gain\n",
    ),
    (
        "Block { / BlockType Ground / } / Block { / BlockType Scope / }",
        "refused F7 Unsupported line 6\n",
    ),
];

#[test]
fn blocks_that_are_refused(rt: HostRuntime) -> Result<(), Fail> {
    are_told(rt.alloc(), BLOCKS)
}

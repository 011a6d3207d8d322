use super::answer;
use std::test::Fail;
use test_models::at_both_depths;

const BLOCKS: &[(&str, &str, &str)] = &[
    // Blocks of a type that isn't read, of none, without the System that they are to have, and lines of the newer form; of two
    // the first.
    (
        "Ground a; Scope b; Mux c",
        "refused F7 Unsupported line 7",
        "refused F7 Unsupported line 11",
    ),
    (
        "Name=a",
        "refused F7 Unsupported line 3",
        "refused F7 Unsupported line 7",
    ),
    (
        "SubSystem a",
        "refused F7 Unsupported line 3",
        "refused F7 Unsupported line 7",
    ),
    (
        "Line { / SrcBlock a / Branch { / Branch { / Dst b / } / } / }",
        "refused F7 Unsupported line 6",
        "refused F7 Unsupported line 10",
    ),
    (
        "Line { / Src a / }; Scope b",
        "refused F7 Unsupported line 3",
        "refused F7 Unsupported line 7",
    ),
    (
        "SubSystem a {; Scope b; }; Line { / Src a / }",
        "refused F7 Unsupported line 7",
        "refused F7 Unsupported line 11",
    ),
    // The first in the order of a block's parameters, of the first block.
    (
        "Ground",
        "refused F8 Parameter line 3 Name",
        "refused F8 Parameter line 7 Name",
    ),
    (
        "Inport a SampleTime=x Port=2",
        "refused F8 Parameter line 3 Port",
        "refused F8 Parameter line 7 Port",
    ),
    (
        "Gain a SampleTime=x OutDataTypeStr=int9",
        "refused F8 Parameter line 3 OutDataTypeStr",
        "refused F8 Parameter line 7 OutDataTypeStr",
    ),
    (
        "Ground a; Gain b Gain=x; Ground",
        "refused F8 Parameter line 7 Gain",
        "refused F8 Parameter line 11 Gain",
    ),
    (
        "Delay a ExternalReset=Rising DelayLengthSource=Port",
        "refused F8 Parameter line 3 DelayLengthSource",
        "refused F8 Parameter line 7 DelayLengthSource",
    ),
    (
        "Gain a Gain=x RndMeth=y; SubSystem b SystemSampleTime=1 {; }",
        "refused F8 Parameter line 3 Gain",
        "refused F8 Parameter line 7 Gain",
    ),
    // A parameter at its limit, where only the block's input is missing, and beyond.
    (
        "Sum a Inputs=16",
        "refused F13 Unconnected line 3 port 1",
        "refused F13 Unconnected line 7 port 1",
    ),
    (
        "Sum a Inputs=17",
        "refused F8 Parameter line 3 Inputs",
        "refused F8 Parameter line 7 Inputs",
    ),
    (
        "Gain a Gain=2147483647",
        "refused F13 Unconnected line 3 port 1",
        "refused F13 Unconnected line 7 port 1",
    ),
    (
        "Gain a Gain=2147483648",
        "refused F8 Parameter line 3 Gain",
        "refused F8 Parameter line 7 Gain",
    ),
    (
        "Delay a DelayLength=65535 X0=x",
        "refused F13 Unconnected line 3 port 1",
        "refused F13 Unconnected line 7 port 1",
    ),
    (
        "Delay a DelayLength=65536",
        "refused F8 Parameter line 3 DelayLength",
        "refused F8 Parameter line 7 DelayLength",
    ),
    (
        "Delay a DelayLength=0",
        "refused F8 Parameter line 3 DelayLength",
        "refused F8 Parameter line 7 DelayLength",
    ),
    (
        "UnitDelay a SampleTime=[2,1]",
        "refused F13 Unconnected line 3 port 1",
        "refused F13 Unconnected line 7 port 1",
    ),
    (
        "UnitDelay a SampleTime=[2,2]",
        "refused F8 Parameter line 3 SampleTime",
        "refused F8 Parameter line 7 SampleTime",
    ),
    (
        "UnitDelay a SampleTime=inf",
        "refused F8 Parameter line 3 SampleTime",
        "refused F8 Parameter line 7 SampleTime",
    ),
];

#[test]
fn blocks_and_parameters(rt: HostRuntime) -> Result<(), Fail> {
    at_both_depths(rt.alloc(), &answer, "_", BLOCKS)
}

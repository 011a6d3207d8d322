use super::answer;
use std::test::Fail;
use test_models::at_both_depths;

const PERIODS_AND_TYPES: &[(&str, &str, &str)] = &[
    // A period 0, whatever the offset and by whatever parameter; of two the first.
    (
        "Constant a Value=true; Constant b Value=true SampleTime=0; Constant c Value=true SampleTime=0",
        "refused F15 Continuous line 8",
        "refused F15 Continuous line 12",
    ),
    (
        "Constant a Value=true SampleTime=[0,-1]",
        "refused F15 Continuous line 3",
        "refused F15 Continuous line 7",
    ),
    (
        "Ground g; RateTransition r OutPortSampleTime=0/3; g 1 > r 1",
        "refused F15 Continuous line 7",
        "refused F15 Continuous line 11",
    ),
    (
        "Constant a Value=true SampleTime=1/1000000000",
        "accepted",
        "accepted",
    ),
    // Floating-point types that are written, and that of a number that writes none; of two the first.
    ("Constant a Value=true", "accepted", "accepted"),
    (
        "Block { / BlockType Constant / Name a / OutDataTypeStr Inherit: Logical / }",
        "accepted",
        "accepted",
    ),
    (
        "Block { / BlockType Constant / Name a / OutDataTypeStr Inherit: Inherit via back propagation / }",
        "accepted",
        "accepted",
    ),
    (
        "Constant a Value=true; Constant b; Constant c",
        "refused F16 FloatType line 8",
        "refused F16 FloatType line 12",
    ),
    (
        "Constant a Value=true OutDataTypeStr=single",
        "refused F16 FloatType line 3",
        "refused F16 FloatType line 7",
    ),
    (
        "Ground g; Gain k ParamDataTypeStr=half; g 1 > k 1",
        "refused F16 FloatType line 7",
        "refused F16 FloatType line 11",
    ),
];

#[test]
fn periods_and_types(rt: HostRuntime) -> Result<(), Fail> {
    at_both_depths(rt.alloc(), &answer, "_", PERIODS_AND_TYPES)
}

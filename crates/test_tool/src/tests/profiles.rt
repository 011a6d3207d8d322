use std::alloc::{AllocError, Global};
use std::test::Fail;
use test_calls::called;
use test_models::model_of;

/// Whether `profile` prints this report on a model of these parts.
fn reports(alloc: Global, parts: &str, report: &str) -> Result<bool, AllocError> {
    let model = model_of(alloc, parts)?;
    let told = called(alloc, "profile a.mdl", model.as_bytes(), &[], &[], 4096)?;
    Ok(told.ended_with(0, report, 0))
}

/// A model's parts, and its report.
const REPORTS: &[(&str, &str)] = &[
    (
        "Inport a OutDataTypeStr=int32; UnitDelay d InitialCondition=7; Outport o; a 1 > d 1; d 1 > o 1",
        "system top inputs 1 outputs 1 functions 1\nout 1 needs none outputs 1\nsystems 1\n",
    ),
    // a signal goes through both ports of a subsystem, one after the other
    (
        "Inport a OutDataTypeStr=int32; \
         SubSystem s {; Inport x1; Inport x2 Port=2; Outport y1; Outport y2 Port=2; x1 1 > y1 1; x2 1 > y2 1; }; \
         Outport o; a 1 > s 1; s 1 > s 2; s 2 > o 1",
        "system top inputs 1 outputs 1 functions 1\nout 1 needs 1 outputs 1\n\
         system s1 inputs 2 outputs 2 functions 2\nout 1 needs 1 outputs 1\nout 2 needs 2 outputs 2\n\
         differ 1 2 by 1\nsystems 2\n",
    ),
    // an input, three times it, and the input of the tick before
    (
        "Inport a OutDataTypeStr=int32; Gain g Gain=3; UnitDelay d; Outport o1; Outport o2 Port=2; Outport o3 Port=3; \
         a 1 > g 1; a 1 > d 1; a 1 > o1 1; g 1 > o2 1; d 1 > o3 1",
        "system top inputs 1 outputs 3 functions 2\nout 1 needs 1 outputs 1 2\nout 2 needs none outputs 3\n\
         differ 1 2 by 1\nsystems 1\n",
    ),
    // both controls
    (
        "Inport a OutDataTypeStr=int32; Inport b Port=2 OutDataTypeStr=boolean; Inport c Port=3 OutDataTypeStr=boolean; \
         SubSystem s {; Inport x; EnablePort e; TriggerPort t; Outport y; x 1 > y 1; }; \
         Outport o; a 1 > s 1; b 1 > s enable; c 1 > s trigger; s 1 > o 1",
        "system top inputs 3 outputs 1 functions 1\nout 1 needs 1 2 3 outputs 1\n\
         system s3 inputs 1 outputs 1 functions 1 control enable trigger\nout 1 needs 1 enable trigger outputs 1\n\
         systems 2\n",
    ),
    // seven times the input, and the sum of that with a delay of the sum
    (
        "Inport In1 OutDataTypeStr=int32; \
         SubSystem G1 {; Inport a; Inport b Port=2; Gain g Gain=7; UnitDelay d InitialCondition=86; Sum s Inputs=++; \
         Outport p; Outport q Port=2; a 1 > g 1; g 1 > p 1; b 1 > s 1; d 1 > s 2; s 1 > d 1; s 1 > q 1; }; \
         Outport Out1; Outport Out2 Port=2; In1 1 > G1 1; G1 1 > G1 2; G1 2 > Out1 1; G1 1 > Out2 1",
        "system top inputs 1 outputs 2 functions 1\nout 1 needs 1 outputs 1 2\n\
         system s1 inputs 2 outputs 2 functions 2\nout 1 needs 1 outputs 1\nout 2 needs 2 outputs 2\n\
         differ 1 2 by 1\nsystems 2\n",
    ),
];

#[test]
fn reports_of_models(rt: HostRuntime) -> Result<(), Fail> {
    for &(parts, report) in REPORTS {
        assert!(rt; reports(rt.alloc(), parts, report)?, "{parts}");
    }
    Ok(())
}

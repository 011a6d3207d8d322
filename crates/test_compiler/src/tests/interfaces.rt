use base_refusals::refusal_text;
use diagram_verdict::ModelFault;
use modules_interfaces::report_of;
use std::alloc::Global;
use std::test::Fail;
use test_models::model_of;

/// The report on a model of these parts, or the text of its refusal.
fn answer(alloc: Global, parts: &str) -> Result<Vec<u8>, Fail> {
    let model = model_of(alloc, parts)?;
    match report_of(alloc, model.as_bytes()) {
        Ok(text) => Ok(text),
        Err(ModelFault::Refused(refusal)) => Ok(refusal_text(alloc, &refusal)?),
        Err(ModelFault::Memory) => Err("memory".into()),
    }
}

#[test]
fn reports_and_refusals(rt: HostRuntime) -> Result<(), Fail> {
    for &(parts, expected) in &[
        (
            "Inport a OutDataTypeStr=int32; UnitDelay d; Outport o; a 1 > d 1; d 1 > o 1",
            "system top inputs 1 outputs 1 functions 1\nout 1 needs none outputs 1\nsystems 1\n",
        ),
        // a signal goes through both ports of a subsystem, one after the other
        (
            "Inport a OutDataTypeStr=int32; \
             SubSystem s {; Inport x1; Inport x2 Port=2; Outport y1; Outport y2 Port=2; x1 1 > y1 1; x2 1 > y2 1; }; \
             Outport o; a 1 > s 1; s 1 > s 2; s 2 > o 1",
            "system top inputs 1 outputs 1 functions 1\nout 1 needs 1 outputs 1\n\
             system s1 inputs 2 outputs 2 functions 2\nout 1 needs 1 outputs 1\nout 2 needs 2 outputs 2\n\
             differ 1 2 by 1\nsystems 2\n",
        ),
        // an input, three times it, and the input of the tick before
        (
            "Inport a OutDataTypeStr=int32; Gain g Gain=3; UnitDelay d; Outport o1; Outport o2 Port=2; Outport o3 Port=3; \
             a 1 > g 1; a 1 > d 1; a 1 > o1 1; g 1 > o2 1; d 1 > o3 1",
            "system top inputs 1 outputs 3 functions 2\nout 1 needs 1 outputs 1 2\nout 2 needs none outputs 3\n\
             differ 1 2 by 1\nsystems 1\n",
        ),
        (
            "Inport a OutDataTypeStr=int32; Inport b Port=2 OutDataTypeStr=boolean; Inport c Port=3 OutDataTypeStr=boolean; \
             SubSystem s {; Inport x; EnablePort e; TriggerPort t; Outport y; x 1 > y 1; }; \
             Outport o; a 1 > s 1; b 1 > s enable; c 1 > s trigger; s 1 > o 1",
            "system top inputs 3 outputs 1 functions 1\nout 1 needs 1 2 3 outputs 1\n\
             system s3 inputs 1 outputs 1 functions 1 control enable trigger\nout 1 needs 1 enable trigger outputs 1\n\
             systems 2\n",
        ),
        (
            "Inport a OutDataTypeStr=int32; Sum s Inputs=|+-; Gain g; Outport b; a 1 > s 1; g 1 > s 2; s 1 > g 1; s 1 > b 1",
            "refused F23 Loop 8 13\n",
        ),
    ] {
        let answer = answer(rt.alloc(), parts)?;
        assert_eq!(rt; answer.as_slice(), expected.as_bytes(), "{parts}");
    }
    Ok(())
}

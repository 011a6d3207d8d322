use base_fixed_point::FixType;
use base_refusals::refusal_text;
use diagram_verdict::ModelFault;
use std::alloc::Global;
use std::fmt::Write;
use std::test::Fail;
use test_models::model_of;
use tool_compiler::compile;

/// What compiling a model of these parts answers: `compiled`, or the text of its refusal without its end.
fn answer(alloc: Global, parts: &str) -> Result<Vec<u8>, Fail> {
    let text = model_of(alloc, parts)?;
    match compile(alloc, text.as_bytes()) {
        Ok(_) => Ok(b"compiled".to_vec(alloc)?),
        Err(ModelFault::Refused(refusal)) => {
            let mut text = refusal_text(alloc, &refusal)?;
            text.pop();
            Ok(text)
        }
        Err(ModelFault::Memory) => Err(Fail::from("memory")),
    }
}

/// How many rows a model of these parts has, how many systems, and how many output functions these have in all; and the types of
/// its inputs.
fn seen(alloc: Global, parts: &str) -> Result<([u32; 3], String), Fail> {
    let text = model_of(alloc, parts)?;
    let Ok(compiled) = compile(alloc, text.as_bytes()) else {
        return Err(Fail::from("refused"));
    };
    let counts = [compiled.rows, compiled.systems, compiled.functions];
    Ok((counts, types_of(alloc, &compiled.inputs)?))
}

/// Says of types: whether each has a sign, its bits and its fraction bits.
fn types_of(alloc: Global, types: &[FixType]) -> Result<String, Fail> {
    let mut told = String::new(alloc);
    for t in types {
        write!(told, "fixdt({},{},{}) ", u8::from(t.signed), t.bits, t.frac)?;
    }
    Ok(told)
}

// What the rules accept is compiled, whatever its kinds, its systems and its rates.
#[test]
fn accepted_or_refused(rt: HostRuntime) -> Result<(), Fail> {
    for &(parts, expected) in &[
        // a sum that takes away its own value, through a gain and through a delay
        (
            "Inport a OutDataTypeStr=int32; Sum s Inputs=|+-; Gain g; Outport b; a 1 > s 1; g 1 > s 2; s 1 > g 1; s 1 > b 1",
            "refused F23 Loop 8 13",
        ),
        (
            "Inport a OutDataTypeStr=int32; Sum s Inputs=|+-; UnitDelay d; Outport b; a 1 > s 1; d 1 > s 2; s 1 > d 1; s 1 > b 1",
            "compiled",
        ),
        (
            "Inport a OutDataTypeStr=int32; Delay d; Outport b; a 1 > d 1; d 1 > b 1",
            "compiled",
        ),
        // a subsystem with nothing in it
        (
            "Ground g; Terminator t; SubSystem s {; }; g 1 > t 1",
            "compiled",
        ),
        // of two periods
        (
            "Inport a OutDataTypeStr=int8 SampleTime=2; Inport b Port=2 OutDataTypeStr=int8 SampleTime=3; \
             Terminator s; Terminator t; a 1 > s 1; b 1 > t 1",
            "compiled",
        ),
    ] {
        let answer = answer(rt.alloc(), parts)?;
        assert_eq!(rt; answer.as_slice(), expected.as_bytes(), "{parts}");
    }
    Ok(())
}

#[test]
fn what_systems_have(rt: HostRuntime) -> Result<(), Fail> {
    for &(parts, counts, inputs) in &[
        // The second input goes to the first output, and the first one through a delay to the second output.
        (
            "Inport a Port=2 OutDataTypeStr=int16; Inport b OutDataTypeStr=uint8; UnitDelay d; Outport p; Outport q Port=2; \
             a 1 > p 1; b 1 > d 1; d 1 > q 1",
            [5, 1, 2],
            "fixdt(0,8,0) fixdt(1,16,0) ",
        ),
        // A signal goes through both ports of a subsystem, one after the other: the root has one function, the subsystem two.
        (
            "Inport a OutDataTypeStr=int32; \
             SubSystem s {; Inport x1; Inport x2 Port=2; Outport y1; Outport y2 Port=2; x1 1 > y1 1; x2 1 > y2 1; }; \
             Outport o; a 1 > s 1; s 1 > s 2; s 2 > o 1",
            [7, 2, 3],
            "fixdt(1,32,0) ",
        ),
        // The subsystem is before the Inports of the root that are its controls; its own Inport is no input of the root.
        (
            "SubSystem s {; Inport x; EnablePort e; TriggerPort t; Outport y; x 1 > y 1; }; \
             Inport c Port=3 OutDataTypeStr=boolean; Inport b Port=2 OutDataTypeStr=boolean; Inport a OutDataTypeStr=int32; \
             Outport o; a 1 > s 1; b 1 > s enable; c 1 > s trigger; s 1 > o 1",
            [9, 2, 2],
            "fixdt(1,32,0) fixdt(0,1,0) fixdt(0,1,0) ",
        ),
    ] {
        let (found, types) = seen(rt.alloc(), parts)?;
        assert_eq!(rt; (found, types.as_str()), (counts, inputs), "{parts}");
    }
    Ok(())
}

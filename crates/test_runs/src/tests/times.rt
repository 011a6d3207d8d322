use super::accepted;
use super::rates::TWO_RATES;
use diagram_meaning::Times;
use std::alloc::{AllocError, Global};
use std::test::Fail;
use test_models::{model_of, model_with};

/// The period and the offset of each row's sample time, in base ticks.
fn pairs(alloc: Global, times: &Times) -> Result<Vec<(u32, u32)>, AllocError> {
    let mut pairs = Vec::new(alloc);
    for time in &times.run {
        pairs.push((time.period, time.offset))?;
    }
    Ok(pairs)
}

/// These pairs, whether each row is a transition that delays, and the cycle.
fn described(alloc: Global, times: &Times) -> Result<String, AllocError> {
    let pairs = pairs(alloc, times)?;
    format!(in alloc; "{pairs:?} {:?} {}", times.delays, times.hyper)
}

/// The text of a model of these parts, with further lines after its System if there are any.
fn file_of(alloc: Global, parts: &str, settings: &str) -> Result<String, AllocError> {
    if settings.is_empty() {
        model_of(alloc, parts)
    } else {
        model_with(alloc, parts, settings)
    }
}

/// The times of such a model.
fn times_of(alloc: Global, parts: &str, settings: &str) -> Result<String, Fail> {
    let model = accepted(alloc, &file_of(alloc, parts, settings)?)?;
    Ok(described(alloc, &model.times)?)
}

const TIMES: &[(&str, &str, &str)] = &[
    // The base tick is 1/150 second.
    (
        TWO_RATES,
        "",
        "[(3, 0), (2, 1), (1, 0), (1, 0)] [false, false, false, false] 6",
    ),
    // From four seconds to one it delays and runs each four, from one to four it holds and runs each four.
    (
        "Inport a OutDataTypeStr=int32 SampleTime=4; RateTransition r InitialCondition=9 OutPortSampleTime=1; \
         Outport o; a 1 > r 1; r 1 > o 1",
        "",
        "[(4, 0), (4, 0), (1, 0)] [false, true, false] 4",
    ),
    (
        "Inport a OutDataTypeStr=int32 SampleTime=1; RateTransition r InitialCondition=9 OutPortSampleTime=4; \
         Outport o; a 1 > r 1; r 1 > o 1",
        "",
        "[(1, 0), (4, 0), (4, 0)] [false, false, false] 4",
    ),
    // A hold of its own time; the base tick is two seconds.
    (
        "Inport a OutDataTypeStr=int32 SampleTime=2; ZeroOrderHold h SampleTime=4; Outport o; a 1 > h 1; h 1 > o 1",
        "",
        "[(1, 0), (2, 0), (2, 0)] [false, false, false] 2",
    ),
    // The base tick is the written step.
    (
        "Inport a OutDataTypeStr=int8 SampleTime=0.2; Gain g; Outport o; a 1 > g 1; g 1 > o 1",
        "FixedStep 0.1",
        "[(2, 0), (2, 0), (2, 0)] [false, false, false] 2",
    ),
];

#[test]
fn sample_times(rt: HostRuntime) -> Result<(), Fail> {
    for &(parts, settings, expected) in TIMES {
        let told = times_of(rt.alloc(), parts, settings)?;
        assert_eq!(rt; told.as_str(), expected, "{parts}");
    }
    Ok(())
}

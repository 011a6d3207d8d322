use base_core::{ParamName, TimeText};
use base_fixed_point::TypeText;
use mdl_params::{Defaults, ParamFault, number, sample_time, type_of};
use mdl_reader::read_mdl;
use mdl_tree::Section;
use std::alloc::Global;
use std::test::Fail;
use test_models::{is_told, push_lines};

/// A model whose section of defaults has these blocks, and beside it a block with these parameters; lines are parted by ` / `.
fn model_with(alloc: Global, defaults: &str, params: &str) -> Result<Section, Fail> {
    let lines = format!(in alloc;
        "BlockParameterDefaults {{ / Version 1 / {defaults} / }} / Block {{ / {params} / }}"
    )?;
    let mut text = String::new(alloc);
    push_lines(&mut text, &lines)?;
    Ok(read_mdl(alloc, text.as_bytes())?)
}

/// What stands for a parameter of a block of this type.
fn found_in(alloc: Global, model: &Section, kind: &str, name: ParamName) -> Result<Vec<u8>, Fail> {
    let defaults = Defaults::new(alloc, model)?;
    let block = model.section(b"Block").ok_or("no block")?;
    let text = defaults
        .found(block, kind.as_bytes(), name)
        .ok_or("no text")?;
    Ok(text.to_vec(alloc)?)
}

/// A block with these defaults, of this type and with these parameters.
type Block = (&'static str, &'static str, &'static str);

/// A gain with two blocks in the section of defaults, of which the first counts.
const GAIN: Block = (
    "Block { / BlockType Gain / OutDataTypeStr fixdt(1,16,4) / SampleTime -1 / } / \
     Block { / BlockType Gain / SampleTime 7 / }",
    "Gain",
    "Name \"Long gain\" / Gain 2.5",
);

/// A delay with an initial condition by its second name, there too.
const DELAY: Block = (
    "Block { / BlockType Delay / X0 3 / }",
    "Delay",
    "DelayLength 5 / X0 7",
);

const PARAMS: &[(Block, ParamName, &str)] = &[
    // The block's own, that of the defaults, and that of the type.
    (GAIN, ParamName::Gain, "2.5"),
    (GAIN, ParamName::SampleTime, "-1"),
    (GAIN, ParamName::RndMeth, "Floor"),
    (GAIN, ParamName::Name, "Long gain"),
    // A delay of several samples, whose initial condition has no second name.
    (DELAY, ParamName::DelayLength, "5"),
    (DELAY, ParamName::DelayLengthSource, "Dialog"),
    (DELAY, ParamName::InitialCondition, "0"),
    (DELAY, ParamName::InitialConditionSource, "Dialog"),
    (DELAY, ParamName::ExternalReset, "None"),
    (DELAY, ParamName::SampleTime, "-1"),
];

#[test]
fn parameters_of_blocks(rt: HostRuntime) -> Result<(), Fail> {
    for &((defaults, kind, params), name, expected) in PARAMS {
        let model = model_with(rt.alloc(), defaults, params)?;
        is_told(&found_in(rt.alloc(), &model, kind, name)?, expected, params)?;
    }
    Ok(())
}

/// What stands for the initial condition of a unit delay with these parameters, where X0 is 3 in the defaults.
fn initial_condition(alloc: Global, params: &str) -> Result<Vec<u8>, Fail> {
    let model = model_with(alloc, "Block { / BlockType UnitDelay / X0 3 / }", params)?;
    let defaults = Defaults::new(alloc, &model)?;
    let block = model.section(b"Block").ok_or("no block")?;
    let text = defaults.param(block, b"UnitDelay", ParamName::InitialCondition);
    Ok(text.to_vec(alloc)?)
}

#[test]
fn initial_conditions(rt: HostRuntime) -> Result<(), Fail> {
    for &(params, expected) in &[("", "3"), ("X0 7", "7"), ("X0 7 / InitialCondition 5", "5")] {
        is_told(&initial_condition(rt.alloc(), params)?, expected, params)?;
    }
    Ok(())
}

/// Texts, with the parts of the fractions that they are, or why they are no numbers.
const NUMBERS: &[(&str, Result<(i128, u128), ParamFault>)] = &[
    (" [1/50] ", Ok((1, 50))),
    ("1e19", Err(ParamFault::Parameter)),
];

/// The parts of the fraction that a text is.
fn parts_of(text: &str) -> Result<(i128, u128), ParamFault> {
    let read = number(text.as_bytes())?;
    Ok((read.num, read.den))
}

#[test]
fn numbers_and_types(rt: HostRuntime) {
    for &(text, parts) in NUMBERS {
        assert_eq!(rt; parts_of(text), parts, "{text}");
    }
    for &(text, meaning) in &[
        ("Inherit: auto", Ok(TypeText::Inherit)),
        ("single", Err(ParamFault::Float)),
        ("fixdt(1,33,0)", Err(ParamFault::Parameter)),
    ] {
        assert_eq!(rt; type_of(text.as_bytes()), meaning, "{text}");
    }
}

/// Texts, with the parts of the period and of the offset that each writes.
const PERIODS: &[(&str, (u64, u64), (u64, u64))] = &[
    ("1/50", (1, 50), (0, 1)),
    ("[1/75 1/150]", (1, 75), (1, 150)),
    (" [0.2, 0.1]", (1, 5), (1, 10)),
    ("[2,0]", (2, 1), (0, 1)),
    ("1.000003", (1_000_003, 1_000_000), (0, 1)),
];

/// The parts of the period and of the offset that a text writes.
fn period_of(text: &str) -> Option<((u64, u64), (u64, u64))> {
    match sample_time(text.as_bytes()) {
        Ok(TimeText::Each { period, offset }) => {
            Some(((period.num, period.den), (offset.num, offset.den)))
        }
        _ => None,
    }
}

#[test]
fn sample_times(rt: HostRuntime) {
    for &(text, period, offset) in PERIODS {
        assert_eq!(rt; period_of(text), Some((period, offset)), "{text}");
    }
    // other sample times, or why a text writes none
    for &(text, time) in &[
        ("[-1, 0]", Ok(TimeText::Inherit)),
        ("inf", Ok(TimeText::Constant)),
        ("0", Err(ParamFault::Continuous)),
        ("[0 -1]", Err(ParamFault::Continuous)),
        ("[1 1]", Err(ParamFault::Parameter)),
        ("-2", Err(ParamFault::Parameter)),
    ] {
        assert_eq!(rt; sample_time(text.as_bytes()), time, "{text}");
    }
}

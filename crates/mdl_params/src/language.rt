// The parameters of each type of block, in the order in which they are checked, with the texts that hold
// where a file gives none.

use base_core::ParamName;
use base_core::ParamName::{
    ConvertRealWorld, Criteria, DelayLength, DelayLengthSource, Deterministic, ExternalReset, Gain,
    InitialCondition, InitialConditionSource, InitialOutput, Inputs, Integrity, Operator,
    OutDataTypeStr, OutPortSampleTime, OutPortSampleTimeOpt, OutputWhenDisabled, ParamDataTypeStr,
    Port, PortDimensions, RndMeth, SampleTime, SaturateOnIntegerOverflow, StatesWhenEnabling,
    SystemSampleTime, Threshold, TriggerType, Value,
};

/// A parameter and its default.
pub(crate) type Parameter = (ParamName, &'static str);

pub(crate) static INPORT: [Parameter; 4] = [
    (Port, "1"),
    (OutDataTypeStr, "Inherit: auto"),
    (SampleTime, "-1"),
    (PortDimensions, "-1"),
];

pub(crate) static OUTPORT: [Parameter; 6] = [
    (Port, "1"),
    (OutDataTypeStr, "Inherit: auto"),
    (SampleTime, "-1"),
    (PortDimensions, "-1"),
    (OutputWhenDisabled, "held"),
    (InitialOutput, "[]"),
];

pub(crate) static SUB_SYSTEM: [Parameter; 1] = [(SystemSampleTime, "-1")];

pub(crate) static CONSTANT: [Parameter; 3] = [
    (Value, "1"),
    (OutDataTypeStr, "Inherit: Inherit from 'Constant value'"),
    (SampleTime, "inf"),
];

pub(crate) static GAIN: [Parameter; 6] = [
    (Gain, "1"),
    (ParamDataTypeStr, "Inherit: Same as input"),
    (OutDataTypeStr, "Inherit: Same as input"),
    (RndMeth, "Floor"),
    (SaturateOnIntegerOverflow, "off"),
    (SampleTime, "-1"),
];

pub(crate) static SUM: [Parameter; 5] = [
    (Inputs, "++"),
    (OutDataTypeStr, "Inherit: Same as first input"),
    (RndMeth, "Floor"),
    (SaturateOnIntegerOverflow, "off"),
    (SampleTime, "-1"),
];

pub(crate) static PRODUCT: [Parameter; 5] = [
    (Inputs, "2"),
    (OutDataTypeStr, "Inherit: Same as first input"),
    (RndMeth, "Floor"),
    (SaturateOnIntegerOverflow, "off"),
    (SampleTime, "-1"),
];

pub(crate) static UNIT_DELAY: [Parameter; 2] = [(InitialCondition, "0"), (SampleTime, "-1")];

pub(crate) static DELAY: [Parameter; 6] = [
    (DelayLength, "2"),
    (DelayLengthSource, "Dialog"),
    (InitialCondition, "0"),
    (InitialConditionSource, "Dialog"),
    (ExternalReset, "None"),
    (SampleTime, "-1"),
];

pub(crate) static ZERO_ORDER_HOLD: [Parameter; 1] = [(SampleTime, "1")];

pub(crate) static SWITCH: [Parameter; 6] = [
    (Criteria, "u2 >= Threshold"),
    (Threshold, "0"),
    (OutDataTypeStr, "Inherit: Same as first input"),
    (RndMeth, "Floor"),
    (SaturateOnIntegerOverflow, "off"),
    (SampleTime, "-1"),
];

pub(crate) static RELATIONAL_OPERATOR: [Parameter; 3] = [
    (Operator, ">="),
    (OutDataTypeStr, "boolean"),
    (SampleTime, "-1"),
];

pub(crate) static LOGIC: [Parameter; 4] = [
    (Operator, "AND"),
    (Inputs, "2"),
    (OutDataTypeStr, "boolean"),
    (SampleTime, "-1"),
];

pub(crate) static DATA_TYPE_CONVERSION: [Parameter; 5] = [
    (OutDataTypeStr, "Inherit: Inherit via back propagation"),
    (ConvertRealWorld, "Real World Value (RWV)"),
    (RndMeth, "Floor"),
    (SaturateOnIntegerOverflow, "off"),
    (SampleTime, "-1"),
];

pub(crate) static RATE_TRANSITION: [Parameter; 5] = [
    (Integrity, "on"),
    (Deterministic, "on"),
    (InitialCondition, "0"),
    (OutPortSampleTimeOpt, "Specify"),
    (OutPortSampleTime, "-1"),
];

pub(crate) static ENABLE_PORT: [Parameter; 1] = [(StatesWhenEnabling, "held")];

pub(crate) static TRIGGER_PORT: [Parameter; 1] = [(TriggerType, "rising")];

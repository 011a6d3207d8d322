// The words of ports and parameters.
ghost use Rattle.std.specs.Prelude.{◌≡◌, Some};
ghost use Rattle.base_core.specs.Words.{port_word, param_word};

use crate::base::{ParamName, Port};
use std::fmt;

impl fmt::Display for Port {
    ghost output = { λ port. Some (port_word port) };

    fn fmt<W: fmt::Write>(&self, f: &mut fmt::Formatter<W>) -> fmt::Result {
        match self {
            Port::Number(n) => write!(f, "{n}"),
            Port::Enable => write!(f, "enable"),
            Port::Trigger => write!(f, "trigger"),
        }
    }
}

impl ParamName {
    /// The name as a model writes it.
    pub fn as_str(self) -> &'static str
        ensures { result.now ≡ param_word self }
    {
        match self {
            ParamName::Name => "Name",
            ParamName::Port => "Port",
            ParamName::OutDataTypeStr => "OutDataTypeStr",
            ParamName::SampleTime => "SampleTime",
            ParamName::PortDimensions => "PortDimensions",
            ParamName::OutputWhenDisabled => "OutputWhenDisabled",
            ParamName::InitialOutput => "InitialOutput",
            ParamName::SystemSampleTime => "SystemSampleTime",
            ParamName::Value => "Value",
            ParamName::Gain => "Gain",
            ParamName::ParamDataTypeStr => "ParamDataTypeStr",
            ParamName::RndMeth => "RndMeth",
            ParamName::SaturateOnIntegerOverflow => "SaturateOnIntegerOverflow",
            ParamName::Inputs => "Inputs",
            ParamName::InitialCondition => "InitialCondition",
            ParamName::Criteria => "Criteria",
            ParamName::Threshold => "Threshold",
            ParamName::Operator => "Operator",
            ParamName::ConvertRealWorld => "ConvertRealWorld",
            ParamName::Integrity => "Integrity",
            ParamName::Deterministic => "Deterministic",
            ParamName::OutPortSampleTimeOpt => "OutPortSampleTimeOpt",
            ParamName::OutPortSampleTime => "OutPortSampleTime",
            ParamName::StatesWhenEnabling => "StatesWhenEnabling",
            ParamName::TriggerType => "TriggerType",
            ParamName::DelayLength => "DelayLength",
            ParamName::DelayLengthSource => "DelayLengthSource",
            ParamName::InitialConditionSource => "InitialConditionSource",
            ParamName::ExternalReset => "ExternalReset",
        }
    }
}

impl fmt::Display for ParamName {
    ghost output = { λ name. Some (param_word name) };

    fn fmt<W: fmt::Write>(&self, f: &mut fmt::Formatter<W>) -> fmt::Result {
        f.write_str(self.as_str())
    }
}

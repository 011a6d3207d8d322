ghost use Rattle.std.specs.Prelude.{◌≡◌};
ghost use Rattle.std.specs.Option.{option_copied};

use crate::language;
use base_core::ParamName;

/// A type of blocks that is read.
#[derive(Clone, Copy, Debug, PartialEq, Eq, Hash, Drop)]
pub enum BlockType {
    /// An input of a system.
    Inport,
    /// An output of a system.
    Outport,
    /// A subsystem.
    SubSystem,
    /// A constant.
    Constant,
    /// A constant 0.
    Ground,
    /// The end of a line.
    Terminator,
    /// A product with a number.
    Gain,
    /// A sum with signs.
    Sum,
    /// A product.
    Product,
    /// A delay of one sample.
    UnitDelay,
    /// A delay of several samples.
    Delay,
    /// A hold at a rate of its own.
    ZeroOrderHold,
    /// A choice of two inputs.
    Switch,
    /// A comparison.
    RelationalOperator,
    /// A logical operator.
    Logic,
    /// A conversion.
    DataTypeConversion,
    /// A hold or a delay between two rates.
    RateTransition,
    /// The enable of a subsystem.
    EnablePort,
    /// The trigger of a subsystem.
    TriggerPort,
}

impl BlockType {
    ghost use Rattle.mdl_params.specs.BlockTypes.{block_type_name, block_type_of};
    ghost use Rattle.mdl_params.specs.Language.{plain_parameters, parameters, default_among};

    /// All types.
    pub const ALL: [BlockType; 19] = [
        BlockType::Inport,
        BlockType::Outport,
        BlockType::SubSystem,
        BlockType::Constant,
        BlockType::Ground,
        BlockType::Terminator,
        BlockType::Gain,
        BlockType::Sum,
        BlockType::Product,
        BlockType::UnitDelay,
        BlockType::Delay,
        BlockType::ZeroOrderHold,
        BlockType::Switch,
        BlockType::RelationalOperator,
        BlockType::Logic,
        BlockType::DataTypeConversion,
        BlockType::RateTransition,
        BlockType::EnablePort,
        BlockType::TriggerPort,
    ];

    /// The name that a model writes as the BlockType.
    pub fn name(self) -> &'static str
        ensures { result.now ≡ block_type_name self }
    {
        match self {
            BlockType::Inport => "Inport",
            BlockType::Outport => "Outport",
            BlockType::SubSystem => "SubSystem",
            BlockType::Constant => "Constant",
            BlockType::Ground => "Ground",
            BlockType::Terminator => "Terminator",
            BlockType::Gain => "Gain",
            BlockType::Sum => "Sum",
            BlockType::Product => "Product",
            BlockType::UnitDelay => "UnitDelay",
            BlockType::Delay => "Delay",
            BlockType::ZeroOrderHold => "ZeroOrderHold",
            BlockType::Switch => "Switch",
            BlockType::RelationalOperator => "RelationalOperator",
            BlockType::Logic => "Logic",
            BlockType::DataTypeConversion => "DataTypeConversion",
            BlockType::RateTransition => "RateTransition",
            BlockType::EnablePort => "EnablePort",
            BlockType::TriggerPort => "TriggerPort",
        }
    }

    /// The type of this name.
    pub fn of(name: &[u8]) -> Option<BlockType>
        ensures { result ≡ block_type_of name.now }
    {
        BlockType::ALL
            .iter()
            .copied()
            .find(|block_type| block_type.name().as_bytes() == name)
    }

    /// The parameters of this type but its name, in the order in which they are checked, each with the text
    /// that holds where a file gives none.
    pub fn parameters(self) -> &'static [(ParamName, &'static str)]
        ensures { plain_parameters result.now ≡ parameters self }
    {
        match self {
            BlockType::Ground | BlockType::Terminator => &[],
            BlockType::Inport => &language::INPORT,
            BlockType::Outport => &language::OUTPORT,
            BlockType::SubSystem => &language::SUB_SYSTEM,
            BlockType::Constant => &language::CONSTANT,
            BlockType::Gain => &language::GAIN,
            BlockType::Sum => &language::SUM,
            BlockType::Product => &language::PRODUCT,
            BlockType::UnitDelay => &language::UNIT_DELAY,
            BlockType::Delay => &language::DELAY,
            BlockType::ZeroOrderHold => &language::ZERO_ORDER_HOLD,
            BlockType::Switch => &language::SWITCH,
            BlockType::RelationalOperator => &language::RELATIONAL_OPERATOR,
            BlockType::Logic => &language::LOGIC,
            BlockType::DataTypeConversion => &language::DATA_TYPE_CONVERSION,
            BlockType::RateTransition => &language::RATE_TRANSITION,
            BlockType::EnablePort => &language::ENABLE_PORT,
            BlockType::TriggerPort => &language::TRIGGER_PORT,
        }
    }

    /// The default of this parameter of a block of this type, if it has it.
    pub fn default_of(self, name: ParamName) -> Option<&'static str>
        ensures { option_copied result ≡ default_among name (parameters self) }
    {
        for (parameter, default) in self.parameters() {
            if *parameter == name {
                return Some(*default);
            }
        }
        None
    }
}

ghost use Rattle.std.specs.Prelude.{ℕ, ◌≤◌, ◌^◌, unsigned_abs};
ghost use Rattle.base_core.specs.Numbers.{AreLowest};

use std::alloc::{AllocError, AllocFailed};

/// There was no memory.
#[derive(Clone, Copy, Debug, PartialEq, Eq, Drop)]
pub struct Memory;

impl From<AllocError> for Memory {
    fn from(_refused: AllocError) -> Memory {
        Memory
    }
}

impl<T: Drop> From<AllocFailed<T>> for Memory {
    fn from(_refused: AllocFailed<T>) -> Memory {
        Memory
    }
}

/// Where a row is: its number, from 0, and the line that opens its block, from 1.
#[derive(Clone, Copy, Debug, PartialEq, Eq, Drop)]
pub struct Place {
    /// The number of the row, from 0, in the order of the file.
    pub row: u32,
    /// The line that opens its Block, from 1.
    pub line: u32,
}

/// A fraction in lowest terms, `num / den`.
#[derive(Clone, Copy, Debug, PartialEq, Eq, Drop)]
pub struct Frac {
    /// The numerator.
    pub num: u64,
    /// The denominator, 1 or more.
    pub den: u64,
    pub ghost lowest: { AreLowest num den },
}

/// The exact value of a number literal in lowest terms, `num / den`.
#[derive(Clone, Copy, Debug, PartialEq, Eq, Drop)]
pub struct Decimal {
    /// The numerator, of a magnitude up to 10^36.
    pub num: i128,
    /// The denominator, 1 to 10^18.
    pub den: u128,
    pub ghost lowest: { AreLowest (unsigned_abs num) den },
    pub ghost num_bound: { unsigned_abs num ≤ 10 ^ 36 },
    pub ghost den_bound: { den ≤ 10 ^ 18 },
}

/// Why a text is no number: it is none by its form, or beyond the limits.
#[derive(Clone, Copy, Debug, PartialEq, Eq, Drop)]
pub enum NumFault {
    /// The text is none of the forms of a number.
    Form,
    /// It has the form of one, with too many digits or too great an exponent.
    Range,
}

/// An input of a block: a port by its number, from 1, or a control.
#[derive(Clone, Copy, Debug, PartialEq, Eq, Drop)]
pub enum Port {
    /// The port with this number, from 1.
    Number(u32),
    /// The enable of a subsystem.
    Enable,
    /// The trigger of a subsystem.
    Trigger,
}

/// The name of a block's parameter.
#[derive(Clone, Copy, Debug, PartialEq, Eq, Drop)]
pub enum ParamName {
    /// The name of the block, by which lines name it.
    Name,
    /// The number of an Inport or Outport.
    Port,
    /// The type of the output.
    OutDataTypeStr,
    /// The sample time.
    SampleTime,
    /// How many elements a signal has: one.
    PortDimensions,
    /// Whether an Outport is held or reset while its subsystem is disabled.
    OutputWhenDisabled,
    /// The value of an Outport before its subsystem was first active.
    InitialOutput,
    /// The sample time of a subsystem: inherited.
    SystemSampleTime,
    /// The number of a Constant.
    Value,
    /// The factor of a Gain.
    Gain,
    /// The type of the factor of a Gain.
    ParamDataTypeStr,
    /// The rounding mode.
    RndMeth,
    /// Whether a result out of range saturates or wraps.
    SaturateOnIntegerOverflow,
    /// How many inputs there are, or their signs.
    Inputs,
    /// What a delay gives before its first input; `X0` is a second spelling.
    InitialCondition,
    /// When a Switch passes its first input.
    Criteria,
    /// What the second input of a Switch is compared with.
    Threshold,
    /// The comparison or the logical operator.
    Operator,
    /// What a conversion keeps: the real value.
    ConvertRealWorld,
    /// That data between rates is kept whole: on.
    Integrity,
    /// That the delay between rates is fixed: on.
    Deterministic,
    /// Whether the time of the output of a RateTransition is written or inherited.
    OutPortSampleTimeOpt,
    /// The sample time of the output of a RateTransition.
    OutPortSampleTime,
    /// Whether states are held or reset while a subsystem is disabled.
    StatesWhenEnabling,
    /// What a trigger waits for.
    TriggerType,
    /// How many samples a Delay remembers.
    DelayLength,
    /// Where that number is written: in the dialog.
    DelayLengthSource,
    /// Where the initial condition is written: in the dialog.
    InitialConditionSource,
    /// Whether a Delay has a port that resets it: none.
    ExternalReset,
}

/// What a trigger waits for: its control rises above 0, falls to 0 or below, or either.
#[derive(Clone, Copy, Debug, PartialEq, Eq, Drop)]
pub enum Edge {
    /// From low to above 0.
    Rising,
    /// From above 0 to low.
    Falling,
    /// Any of the two.
    Either,
}

/// How a subsystem is controlled: not at all, by an enable, by a trigger, or by both. Where one with an enable resets, its
/// states start anew once it was disabled.
#[derive(Clone, Copy, Debug, PartialEq, Eq, Drop)]
pub enum Control {
    /// It is active where its parent is.
    Plain,
    /// It is active while its enable is above 0.
    Enabled { reset: bool },
    /// It is active at the edges of its trigger.
    Triggered(Edge),
    /// It is active at the edges of its trigger at which its enable is above 0.
    Both { reset: bool, edge: Edge },
}

/// A comparison of two numbers.
#[derive(Clone, Copy, Debug, PartialEq, Eq, Drop)]
pub enum Compare {
    /// `==`.
    Eq,
    /// `~=`.
    Ne,
    /// `<`.
    Lt,
    /// `<=`.
    Le,
    /// `>=`.
    Ge,
    /// `>`.
    Gt,
}

/// The sample time that a text writes.
#[derive(Clone, Copy, Debug, PartialEq, Eq, Drop)]
pub enum TimeText {
    /// The time is inherited: `-1`.
    Inherit,
    /// The row is constant: `inf`.
    Constant,
    /// A period above 0 and an offset below it, in seconds.
    Each { period: Frac, offset: Frac },
}

use base_core::{Compare, Control, Decimal, TimeText};
use base_fixed_point::{FixType, Over, Round};

/// How an exact result is brought into a type.
#[derive(Clone, Copy, Debug, PartialEq, Eq, Drop)]
pub struct How {
    /// How it is rounded to a stored integer.
    pub round: Round,
    /// What becomes of one out of range.
    pub over: Over,
}

/// A logical operator.
#[derive(Clone, Copy, Debug, PartialEq, Eq, Drop)]
pub enum Logic {
    /// All inputs are true.
    And,
    /// Some input is.
    Or,
    /// Not all are.
    Nand,
    /// None is.
    Nor,
    /// An odd number is.
    Xor,
    /// An even number is.
    Nxor,
    /// The one input is not.
    Not,
}

/// When a switch passes its first input: where its second one is at least the threshold, above it, or not 0.
#[derive(Clone, Copy, Debug, PartialEq, Eq, Drop)]
pub enum Criterion {
    /// `u2 >= Threshold`.
    Ge,
    /// `u2 > Threshold`.
    Gt,
    /// `u2 ~= 0`.
    NotZero,
}

/// A gain, with a type of its own or with a written one.
#[derive(Clone, Copy, Debug, PartialEq, Eq, Drop)]
pub enum GainText {
    /// The type is found from the number.
    Own(Decimal),
    /// The type is written.
    Typed(Decimal, FixType),
}

/// What a row is, with its parameters. Bit i of `minus` says that input i + 1 is subtracted; `length` is how many samples a
/// delay remembers.
#[derive(Clone, Copy, Debug, PartialEq, Eq, Drop)]
pub enum Kind {
    /// An input of its system, by its port, from 1.
    Inport {
        port: u32,
    },
    /// An output of its system, by its port, from 1: whether it is reset while its subsystem is disabled, and its
    /// initial output.
    Outport {
        port: u32,
        reset: bool,
        initial: Decimal,
    },
    /// A subsystem, by its controls.
    SubSystem(Control),
    /// A constant number.
    Constant(Decimal),
    /// The constant 0.
    Ground,
    /// The end of a line.
    Terminator,
    /// The input times a number.
    Gain {
        gain: GainText,
        how: How,
    },
    /// The sum of `count` inputs, each with its sign.
    Sum {
        count: u8,
        minus: u32,
        how: How,
    },
    /// The product of `count` inputs.
    Product {
        count: u8,
        how: How,
    },
    /// The input of the last tick at which the row ran.
    UnitDelay {
        initial: Decimal,
    },
    /// The input of so many such ticks before.
    Delay {
        length: u32,
        initial: Decimal,
    },
    /// The input, at a rate of its own.
    ZeroOrderHold,
    /// The first input where the second meets the criterion, else the third.
    Switch {
        criterion: Criterion,
        threshold: Decimal,
        how: How,
    },
    /// Whether two inputs compare so.
    Relational(Compare),
    /// A logical operator over `count` inputs.
    Logic {
        op: Logic,
        count: u8,
    },
    /// The input in another type.
    Convert(How),
    /// The input at another rate, held or delayed; `out` is the time of the output.
    RateTransition {
        initial: Decimal,
        out: TimeText,
    },
    /// The port of a subsystem's enable.
    EnablePort,
    /// The port of a subsystem's trigger.
    TriggerPort,
}

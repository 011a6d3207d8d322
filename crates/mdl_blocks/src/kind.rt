use crate::signs::SignMask;
use crate::written::{WrittenConstant, WrittenTime, WrittenType};
use base_core::{Compare, Decimal, Edge};
use diagram_blocks::{Criterion, How, Logic};
use mdl_tree::Section;

/// What a block is, with its parameters.
#[derive(Clone, Copy, Drop)]
pub enum BlockKind<'a> {
    /// An input of its system, by its port, from 1.
    Inport {
        port: u32,
    },
    /// An output of its system, by its port, from 1: whether it is reset while its subsystem is disabled, and its
    /// initial output.
    Outport {
        port: u32,
        reset: bool,
        initial: Decimal,
    },
    /// A subsystem, with the System inside it.
    SubSystem {
        system: &'a Section,
    },
    /// A constant.
    Constant(WrittenConstant),
    /// The constant 0.
    Ground,
    /// The end of a line.
    Terminator,
    /// The input times a number, which has a type.
    Gain {
        factor: Decimal,
        factor_type: WrittenType,
        how: How,
    },
    /// The sum of inputs, each with its sign.
    Sum {
        signs: SignMask,
        how: How,
    },
    /// The product of `count` inputs, from 1 to 16.
    Product {
        count: u8,
        how: How,
    },
    /// The input of the last tick at which the row ran.
    UnitDelay {
        initial: Decimal,
    },
    /// The input of so many such ticks before, from 1 to 65,535.
    Delay {
        length: u32,
        initial: Decimal,
    },
    /// The input, at a rate of its own.
    ZeroOrderHold,
    /// The first input where the second meets the criterion, else the third.
    Switch {
        criterion: Criterion,
        threshold: Decimal,
        how: How,
    },
    /// Whether two inputs compare so.
    Relational(Compare),
    /// A logical operator over `count` inputs, from 1 to 16.
    Logic {
        op: Logic,
        count: u8,
    },
    /// The input in another type.
    Convert(How),
    /// The input at another rate, held or delayed; `out` is the time of the output.
    RateTransition {
        initial: Decimal,
        out: WrittenTime,
    },
    /// The port of a subsystem's enable: whether its states are reset while it is disabled.
    EnablePort {
        reset: bool,
    },
    /// The port of a subsystem's trigger, and the edge that it waits for.
    TriggerPort(Edge),
}

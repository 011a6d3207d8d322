use crate::kind::{Criterion, How, Logic};
use base_core::Compare;
use base_fixed_point::FixType;

/// What a row computes, with its constants brought into their types. A `Line` is a delay of several samples.
#[derive(Clone, Copy, Debug, PartialEq, Eq, Drop)]
pub enum Op {
    /// The input.
    Copy,
    /// A constant, as a stored integer.
    Value(i64),
    /// The one sample that is remembered; its start as a stored integer.
    Delay(i64),
    /// The oldest of `length` samples; their start as a stored integer.
    Line {
        length: u32,
        start: i64,
    },
    /// The input times `m`, a number with `frac` bits after the point together with the input, converted.
    Gain {
        m: i64,
        frac: u8,
        to: FixType,
        how: How,
    },
    /// The sum of inputs with these fraction bits, each with its sign, converted.
    Sum {
        count: u8,
        minus: u32,
        fracs: [u8; 16],
        to: FixType,
        how: How,
    },
    /// The product of inputs, with `frac` fraction bits together, converted.
    Product {
        count: u8,
        frac: u16,
        to: FixType,
        how: How,
    },
    /// One of two inputs with these fraction bits, converted; the threshold is in the type of the second input.
    Switch {
        criterion: Criterion,
        threshold: i64,
        fracs: [u8; 2],
        to: FixType,
        how: How,
    },
    /// Whether inputs with these fraction bits compare so.
    Relational {
        compare: Compare,
        fracs: [u8; 2],
    },
    /// A logical operator over the first `count` inputs.
    Logic {
        op: Logic,
        count: u8,
    },
    /// The input, with `frac` fraction bits, converted.
    Convert {
        frac: u8,
        to: FixType,
        how: How,
    },
    /// No value.
    Nothing,
}

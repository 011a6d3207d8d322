ghost use Rattle.std.specs.Prelude.{◌≡◌, ◌≤◌, ◌∷◌, [], false, length};
ghost use Rattle.diagram_blocks.specs.declared.kind.Kind.TheVariants as kind;
ghost use Rattle.diagram_blocks.specs.Limits.{HasConstant, HasInputTypes, IsWithinLimits};
ghost use Rattle.diagram_blocks.specs.Meaning as meaning;

use crate::gain::gain_of;
use crate::kind::{Criterion, GainText, How, Kind};
use crate::op::Op;
use crate::width::total_frac;
use base_core::Decimal;
use base_fixed_point::{FixType, quantize};

/// The fraction bits of the inputs, with 0 in the places after them.
fn sum_fracs(inputs: &[FixType]) -> [u8; 16]
    requires { length inputs.now ≤ 16 }
    ensures { result ≡ meaning.sum_fracs inputs.now }
{
    let mut fracs = [0; 16];
    for (i, t) in inputs.iter().enumerate() {
        fracs[i] = t.frac;
    }
    fracs
}

/// What a gain computes of an input of this type.
fn gain_op(gain: &GainText, how: How, input: FixType, out: FixType) -> Op
    requires { HasConstant gain.now }
    ensures { result ≡ meaning.op_of (kind.Gain gain.now how) (input ∷ []) out false }
{
    let (m, frac) = gain_of(gain);
    Op::Gain {
        m,
        frac: input.frac + frac,
        to: out,
        how,
    }
}

/// What a sum computes of inputs of these types.
fn sum_op(count: u8, minus: u32, how: How, inputs: &[FixType], out: FixType) -> Op
    requires types { HasInputTypes (kind.Sum count minus how) inputs.now }
    requires limits { IsWithinLimits (kind.Sum count minus how) }
    ensures { result ≡ meaning.op_of (kind.Sum count minus how) inputs.now out false }
{
    Op::Sum {
        count,
        minus,
        fracs: sum_fracs(inputs),
        to: out,
        how,
    }
}

/// What a switch computes of inputs of these types.
fn switch_op(
    criterion: Criterion,
    threshold: &Decimal,
    how: How,
    inputs: &[FixType],
    out: FixType,
) -> Op
    requires { HasInputTypes (kind.Switch criterion threshold.now how) inputs.now }
    ensures { result
        ≡ meaning.op_of (kind.Switch criterion threshold.now how) inputs.now out false }
{
    Op::Switch {
        criterion,
        threshold: quantize(threshold, inputs[1]),
        fracs: [inputs[0].frac, inputs[2].frac],
        to: out,
        how,
    }
}

/// What a row computes, with its numbers as stored integers: a threshold in the second input's type, a gain in its own
/// one, and all others in the row's.
///
/// A rate transition is a delay where `delays` says so, and else a hold.
pub fn resolve(k: &Kind, inputs: &[FixType], out: FixType, delays: bool) -> Op
    requires has_types { HasInputTypes k.now inputs.now }
    requires within_limits { IsWithinLimits k.now }
    ensures { result ≡ meaning.op_of k.now inputs.now out delays }
{
    match *k {
        Kind::Inport { .. } | Kind::Outport { .. } | Kind::ZeroOrderHold => Op::Copy,
        Kind::SubSystem(_) | Kind::Terminator | Kind::EnablePort | Kind::TriggerPort => Op::Nothing,
        Kind::Constant(value) => Op::Value(quantize(&value, out)),
        Kind::Ground => Op::Value(0),
        Kind::Gain { gain, how } => gain_op(&gain, how, inputs[0], out),
        Kind::Sum { count, minus, how } => sum_op(count, minus, how, inputs, out),
        Kind::Product { count, how } => Op::Product {
            count,
            frac: total_frac(inputs),
            to: out,
            how,
        },
        Kind::UnitDelay { initial } => Op::Delay(quantize(&initial, out)),
        Kind::Delay { length, initial } => Op::Line {
            length,
            start: quantize(&initial, out),
        },
        Kind::Switch {
            criterion,
            threshold,
            how,
        } => switch_op(criterion, &threshold, how, inputs, out),
        Kind::Relational(compare) => {
            let fracs = [inputs[0].frac, inputs[1].frac];
            Op::Relational { compare, fracs }
        }
        Kind::Logic { op, count } => Op::Logic { op, count },
        Kind::Convert(how) => Op::Convert {
            frac: inputs[0].frac,
            to: out,
            how,
        },
        Kind::RateTransition { initial, .. } if delays => Op::Delay(quantize(&initial, out)),
        Kind::RateTransition { .. } => Op::Copy,
    }
}

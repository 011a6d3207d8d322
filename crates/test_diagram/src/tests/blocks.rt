ghost use Rattle.std.specs.Prelude.{◌≤◌, false, pos};
ghost use Rattle.diagram_blocks.specs.Evaluation.{PassesInType, ReadsInTypes};
ghost use Rattle.diagram_blocks.specs.Limits.{HasInputTypes, IsWithinLimits};
ghost use Rattle.diagram_blocks.specs.Meaning.{op_of};
ghost use Rattle.diagram_blocks.specs.Width as width;

use super::INT8;
use base_core::{Compare, Decimal, TimeText};
use base_fixed_point::{FixType, Over, Round};
use diagram_blocks::{
    Criterion, GainText, How, Kind, Logic, Op, feeds_through, ports, resolve, rhs, wide_bits,
};

const BOOLEAN: FixType = FixType {
    signed: false,
    bits: 1,
    frac: 0,
};

const UINT8: FixType = FixType {
    signed: false,
    bits: 8,
    frac: 0,
};

const INT16: FixType = FixType {
    signed: true,
    bits: 16,
    frac: 0,
};

const INT32: FixType = FixType {
    signed: true,
    bits: 32,
    frac: 0,
};

const UINT32: FixType = FixType {
    signed: false,
    bits: 32,
    frac: 0,
};

const FLOOR_SATURATE: How = How {
    round: Round::Floor,
    over: Over::Saturate,
};

const FLOOR_WRAP: How = How {
    round: Round::Floor,
    over: Over::Wrap,
};

/// The value of a row of this kind that has no memory.
fn value(k: &Kind, types: &[FixType], out: FixType, inputs: &[i64]) -> i64
    requires has_types { HasInputTypes k.now types.now }
    requires within_limits { IsWithinLimits k.now }
    requires narrow { width.wide_bits k.now types.now out ≤ 62 }
    requires reads { ReadsInTypes k.now types.now inputs.now }
    requires passes { PassesInType (op_of k.now types.now out false) out inputs.now (pos 0) }
{
    rhs(&resolve(k, types, out, false), inputs, 0)
}

#[test]
fn wide_product(rt: HostRuntime) {
    let least = -2_147_483_648;
    let wrapping = Kind::Product {
        count: 2,
        how: FLOOR_WRAP,
    };
    let saturating = Kind::Product {
        count: 2,
        how: FLOOR_SATURATE,
    };
    let bits = [
        wide_bits(&wrapping, &[UINT32, UINT32], UINT32),
        wide_bits(&wrapping, &[INT32, INT32], INT32),
    ];
    let values = [
        value(&wrapping, &[INT32, INT32], INT32, &[least, least]),
        value(&saturating, &[INT32, INT32], INT32, &[least, least]),
    ];
    assert_eq!(rt; (bits, values), ([64, 62], [0, 2_147_483_647]));
}

#[test]
fn switch_thresholds(rt: HostRuntime) {
    let half = Decimal { num: 1, den: 2 };
    let fine = FixType {
        signed: true,
        bits: 8,
        frac: 4,
    };
    let types = [INT8, fine, INT16];
    let above = Kind::Switch {
        criterion: Criterion::Gt,
        threshold: half,
        how: FLOOR_SATURATE,
    };
    let above_wrapping = Kind::Switch {
        criterion: Criterion::Gt,
        threshold: half,
        how: FLOOR_WRAP,
    };
    let at_least = Kind::Switch {
        criterion: Criterion::Ge,
        threshold: half,
        how: FLOOR_WRAP,
    };
    let values = [
        value(&above, &types, INT8, &[5, 8, 300]),
        value(&above_wrapping, &types, INT8, &[5, 8, 300]),
        value(&above, &types, INT8, &[5, 9, 300]),
        value(&at_least, &types, INT8, &[5, 8, 300]),
    ];
    assert_eq!(rt; values, [127, 44, 5, 5]);
}

#[test]
fn logic_and_comparison(rt: HostRuntime) {
    let xor = Kind::Logic {
        op: Logic::Xor,
        count: 3,
    };
    let three = [BOOLEAN, BOOLEAN, BOOLEAN];
    let less = Kind::Relational(Compare::Lt);
    let values = [
        value(&xor, &three, BOOLEAN, &[1, 1, 1]),
        value(&xor, &three, BOOLEAN, &[1, 1, 0]),
        value(&less, &[INT8, UINT8], BOOLEAN, &[-1, 255]),
    ];
    assert_eq!(rt; values, [1, 0, 1]);
}

#[test]
fn small_gain(rt: HostRuntime) {
    let gain = Kind::Gain {
        gain: GainText::Own(Decimal { num: 1, den: 10 }),
        how: FLOOR_WRAP,
    };
    let values = [
        value(&gain, &[INT32], INT32, &[2_147_483_647]),
        value(&gain, &[INT32], INT32, &[-1]),
        value(&gain, &[INT32], INT32, &[10]),
    ];
    assert_eq!(rt;
        (wide_bits(&gain, &[INT32], INT32), values),
        (59, [214_748_364, -1, 1])
    );
}

#[test]
fn rounding_to_int8(rt: HostRuntime) {
    let fine = FixType {
        signed: true,
        bits: 16,
        frac: 4,
    };
    for &(round, tie, wrapped) in &[
        (Round::Floor, -3, 127),
        (Round::Ceiling, -2, -128),
        (Round::Zero, -2, 127),
        (Round::Nearest, -2, -128),
        (Round::Round, -3, -128),
        (Round::Convergent, -2, -128),
    ] {
        let saturating = Kind::Convert(How {
            round,
            over: Over::Saturate,
        });
        let wrapping = Kind::Convert(How {
            round,
            over: Over::Wrap,
        });
        let values = [
            value(&saturating, &[fine], INT8, &[-40]),
            value(&saturating, &[fine], INT8, &[2040]),
            value(&wrapping, &[fine], INT8, &[2040]),
        ];
        assert_eq!(rt; values, [tie, 127, wrapped]);
    }
}

#[test]
fn delays_and_holds(rt: HostRuntime) {
    let seven = Decimal { num: 7, den: 1 };
    let delay = Kind::UnitDelay { initial: seven };
    let line = Kind::Delay {
        length: 3,
        initial: seven,
    };
    let late = Op::Line {
        length: 3,
        start: 7,
    };
    assert_eq!(rt;
        (ports(&delay), resolve(&delay, &[], INT8, false)),
        (1, Op::Delay(7))
    );
    assert_eq!(rt; (ports(&line), resolve(&line, &[], INT8, false)), (1, late));
    let transition = Kind::RateTransition {
        initial: seven,
        out: TimeText::Inherit,
    };
    let feed_through = [
        feeds_through(&late),
        feeds_through(&resolve(&transition, &[], INT8, true)),
        feeds_through(&resolve(&transition, &[], INT8, false)),
    ];
    assert_eq!(rt; feed_through, [false, false, true]);
}

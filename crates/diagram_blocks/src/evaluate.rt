ghost use Rattle.std.specs.Prelude.{◌≡◌, ◌*◌, ◌*ℤ◌, ◌+◌, ◌<◌, ◌≤◌, ◌^◌, Bool, List, length, map, take, get_or, unsigned_abs};
ghost use Rattle.base_fixed_point.specs.declared.FixType.{FixType};
ghost use Rattle.base_fixed_point.specs.Conversion as rule;
ghost use Rattle.base_fixed_point.specs.Conversion.{InType};
ghost use Rattle.diagram_blocks.specs.declared.kind.Kind.{Kind};
ghost use Rattle.diagram_blocks.specs.Value as value;
ghost use Rattle.diagram_blocks.specs.Meaning.{op_of};
ghost use Rattle.diagram_blocks.specs.Laws as law;
ghost use Rattle.diagram_blocks.specs.Evaluation.{IsEvaluable, PassesInType};

use crate::exact::{aligned, exact_product, exact_sum};
use crate::kind::{Criterion, How};
use crate::logic::{compares, logic, number_of_bool, passes};
use crate::op::Op;
use base_core::Compare;
use base_fixed_point::{FixType, convert};

/// The number v of `frac` fraction bits, brought into a type.
fn conversion(v: i64, frac: u8, to: FixType, how: How) -> i64
    requires { law.ConversionFits (unsigned_abs v) frac to }
    ensures { result ≡ value.conversion v frac to how }
{
    convert(i128::from(v), frac, to, how.round, how.over)
}

/// A number times a gain's constant.
fn gain(v: i64, m: i64, frac: u8, to: FixType, how: How) -> i64
    requires { law.ConversionFits (unsigned_abs v * unsigned_abs m) frac to }
    ensures { result ≡ value.conversion (v *ℤ m) frac to how }
{
    conversion(v * m, frac, to, how)
}

/// The greatest of some numbers of fraction bits, 0 where there are none.
pub fn greatest_frac(fracs: &[u8]) -> u8
    ensures { result ≡ value.greatest_in fracs.now }
{
    let mut most = 0;
    for frac in fracs {
        most = (*frac).max(most);
    }
    most
}

/// The sum of the inputs, exact before its conversion; bit i of `minus` subtracts input i + 1.
fn sum(minus: u32, fracs: &[u8], inputs: &[i64], to: FixType, how: How) -> i64
    requires few { length inputs.now ≤ 16 }
    requires one_each { length fracs.now ≡ length inputs.now }
    requires fits { let common = value.greatest_in fracs.now in
        law.ConversionFits (law.sum_magnitude common fracs.now inputs.now) common to }
    requires types { value.greatest_in fracs.now ≤ 31 }
    ensures { let common = value.greatest_in fracs.now in
        result ≡ value.conversion (value.exact_sum minus common 0 fracs.now inputs.now) common to
        how }
{
    let common = greatest_frac(fracs);
    conversion(
        exact_sum(minus, u32::from(common), fracs, inputs),
        common,
        to,
        how,
    )
}

/// The product of the inputs, exact before its conversion.
fn product(frac: u8, inputs: &[i64], to: FixType, how: How) -> i64
    requires { law.ConversionFits (law.product_magnitude inputs.now) frac to }
    ensures { result ≡ value.conversion (value.exact_product inputs.now) frac to how }
{
    conversion(exact_product(inputs), frac, to, how)
}

/// 1 where two inputs compare so as exact numbers, else 0.
fn comparison(compare: Compare, fracs: &[u8], left: i64, right: i64) -> i64
    requires two { length fracs.now ≡ 2 }
    requires types { value.greatest_in fracs.now ≤ 31 }
    requires fits_left { let common = value.greatest_in fracs.now in
        unsigned_abs (rule.over_units left (get_or fracs.now 0 0) common) ≤ 2 ^ 62 }
    requires fits_right { let common = value.greatest_in fracs.now in
        unsigned_abs (rule.over_units right (get_or fracs.now 1 0) common) ≤ 2 ^ 62 }
    ensures { let common = value.greatest_in fracs.now in result ≡ value.number_of_bool
        (value.compares compare (rule.over_units left (get_or fracs.now 0 0) common)
        (rule.over_units right (get_or fracs.now 1 0) common)) }
{
    let common = u32::from(greatest_frac(fracs));
    let left = aligned(left, fracs[0], common);
    let right = aligned(right, fracs[1], common);
    number_of_bool(compares(compare, left, right))
}

/// The value of a row, by its operation.
fn computed(op: &Op, inputs: &[i64], memory: i64) -> i64
    requires { IsEvaluable op.now inputs.now memory }
    ensures { result ≡ value.rhs op.now inputs.now memory }
{
    match *op {
        Op::Copy => inputs[0],
        Op::Value(v) => v,
        Op::Delay(_) | Op::Line { .. } => memory,
        Op::Gain { m, frac, to, how } => gain(inputs[0], m, frac, to, how),
        Op::Sum {
            count,
            minus,
            fracs,
            to,
            how,
        } => sum(minus, &fracs[..usize::from(count)], inputs, to, how),
        Op::Product {
            count: _,
            frac,
            to,
            how,
        } => product(frac as u8, inputs, to, how),
        Op::Switch {
            criterion,
            threshold,
            fracs,
            to,
            how,
        } => {
            if passes(criterion, inputs[1], threshold) {
                conversion(inputs[0], fracs[0], to, how)
            } else {
                conversion(inputs[2], fracs[1], to, how)
            }
        }
        Op::Relational { compare, fracs } => comparison(compare, &fracs, inputs[0], inputs[1]),
        Op::Logic { op, count: _ } => number_of_bool(logic(op, inputs)),
        Op::Convert { frac, to, how } => conversion(inputs[0], frac, to, how),
        Op::Nothing => 0,
    }
}

/// The value of a row from the values of its inputs and the first of its memory (Simulink reference, fixed-point behaviour of the
/// blocks): sums and products are exact before their one conversion.
///
/// The operation is that of a row that counts at most 62 bits, and its inputs lie in their types. A copied input and a
/// delay's memory lie in the row's type.
pub fn rhs(op: &Op, inputs: &[i64], memory: i64) -> i64
    requires { IsEvaluable op.now inputs.now memory }
    ensures value { result ≡ value.rhs op.now inputs.now memory }
    ensures in_type { (kind : Kind) (types : List FixType) (out : FixType) (delays : Bool) →
        op.now ≡ op_of kind types out delays → PassesInType op.now out inputs.now memory →
        InType out result }
{
    computed(op, inputs, memory)
}

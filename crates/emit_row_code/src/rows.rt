ghost use Rattle.std.specs.Prelude.{◌≡◌, ◌<◌, ◌≤◌, ◌-◌, ◌^◌, IfOk, length, get_or, pos, unsigned_abs};
ghost use Rattle.std.specs.Option.{option_and_then};
ghost use Rattle.diagram_blocks.specs.Value.{greatest_in};
ghost use Rattle.c_syntax.specs.Plain.{expr_tree, cond_tree};
ghost use Rattle.c_syntax.specs.Tree as tree;
ghost use Rattle.c_syntax.specs.Tree.{compare};
ghost use Rattle.c_syntax.specs.declared.BinOp.TheVariants.{Mul};
ghost use Rattle.emit_row_code.specs.RowCode as code;
ghost use Rattle.emit_row_code.specs.Ranges as numbers;
ghost use Rattle.emit_row_code.specs.Resolved.{IsRowOp};

use crate::conversion::{Conversion, aligned};
use crate::exact::{product, sum};
use crate::expression::{binary, truth, written};
use crate::laws::row_ops_are_writable;
use crate::ranges::{gain_range, input_range, product_range, sum_range};
use crate::truth::{logic, passes, passes_all};
use base_core::{Compare, Memory};
use base_fixed_point::FixType;
use c_syntax::{BinOp, Cond, Expr, Leaf};
use diagram_blocks::{Criterion, How, Logic, Op, greatest_frac};
use std::alloc::Global;

/// An input by its place, 0 past the last one.
fn input(inputs: &[Leaf], place: usize) -> Expr
    ensures { expr_tree result ≡ code.input_code inputs.now place }
{
    match inputs.get(place) {
        Some(leaf) => Expr::Read(*leaf),
        None => Expr::Literal(0),
    }
}

/// 1 where two inputs compare so as exact numbers, else 0.
fn comparison(alloc: Global, how: Compare, fracs: &[u8], inputs: &[Leaf]) -> Result<Expr, Memory>
    requires two { length fracs.now ≡ 2 }
    requires unit { greatest_in fracs.now ≤ 31 }
    ensures { IfOk result (λ e. expr_tree e ≡ code.truth (compare how
        (code.aligned (code.input_code inputs.now 0) (get_or fracs.now 0 0) (greatest_in fracs.now))
        (code.aligned (code.input_code inputs.now 1) (get_or fracs.now 1 0)
        (greatest_in fracs.now)))) }
{
    let common = u32::from(greatest_frac(fracs));
    let left = aligned(alloc, input(inputs, 0), u32::from(fracs[0]), common)?;
    let right = aligned(alloc, input(inputs, 1), u32::from(fracs[1]), common)?;
    truth(alloc, Cond::Compare(how, left, right))
}

impl<'a> Conversion<'a> {
    /// The sum of inputs of so many fraction bits, converted; bit i of `minus` subtracts input i + 1.
    fn converted_sum(&self, alloc: Global, minus: u32, fracs: &[u8]) -> Result<Expr, Memory>
        requires few { length fracs.now ≤ 16 }
        requires unit { greatest_in fracs.now ≤ 31 }
        ensures { let row = self.now in let common = greatest_in fracs.now in IfOk result
            (λ e. expr_tree e ≡ code.converted (code.sum_code minus common fracs.now row.inputs.now)
            common (numbers.sum_range minus common 0 fracs.now row.types.now
            (numbers.just (pos 0))) row.to row.how) }
    {
        let common = greatest_frac(fracs);
        let range = sum_range(minus, common, fracs, self.types);
        let exact = sum(alloc, minus, fracs, self.inputs)?;
        self.converted(alloc, exact, u32::from(common), range)
    }

    /// An input of `frac` fraction bits, by its place, converted.
    fn converted_input(&self, alloc: Global, place: usize, frac: u8) -> Result<Expr, Memory>
        requires { frac ≤ 31 }
        ensures { let row = self.now in IfOk result (λ e. expr_tree e
            ≡ code.converted_input row.inputs.now row.types.now place frac row.to row.how) }
    {
        let range = input_range(self.types, place);
        self.converted(alloc, input(self.inputs, place), u32::from(frac), range)
    }

    /// The same in a box.
    fn boxed_input(&self, alloc: Global, place: usize, frac: u8) -> Result<Box<Expr>, Memory>
        requires { frac ≤ 31 }
        ensures { let row = self.now in IfOk result (λ e. expr_tree e.value
            ≡ code.converted_input row.inputs.now row.types.now place frac row.to row.how) }
    {
        Ok(Box::new(alloc, self.converted_input(alloc, place, frac)?)?)
    }

    /// The first input where a test holds, else the third one, each converted; `first` says which one, where it's known.
    fn converted_either(
        &self,
        alloc: Global,
        first: Option<bool>,
        test: Box<Cond>,
        fracs: [u8; 2],
    ) -> Result<Expr, Memory>
        requires first_unit { get_or fracs 0 0 ≤ 31 }
        requires third_unit { get_or fracs 1 0 ≤ 31 }
        ensures { let row = self.now in IfOk result
            (λ e. expr_tree e ≡ code.either_code first (cond_tree test.value)
            (code.converted_input row.inputs.now row.types.now 0 (get_or fracs 0 0) row.to row.how)
            (code.converted_input row.inputs.now row.types.now 2 (get_or fracs 1 0)
            row.to row.how)) }
    {
        let on_true = self.boxed_input(alloc, 0, fracs[0])?;
        let on_false = self.boxed_input(alloc, 2, fracs[1])?;
        Ok(match first {
            Some(true) => Box::into_inner(on_true),
            Some(false) => Box::into_inner(on_false),
            None => Expr::Pick(test, on_true, on_false),
        })
    }

    /// The product of all inputs, of `frac` fraction bits together, converted.
    fn converted_product(&self, alloc: Global, count: u8, frac: u16) -> Result<Expr, Memory>
        requires { frac - self.now.to.frac ≤ 62 }
        ensures { let row = self.now in IfOk result (λ e. expr_tree e
            ≡ code.converted (code.product_code row.inputs.now) frac
            (numbers.product_range count row.types.now) row.to row.how) }
    {
        let range = product_range(count, self.types);
        let exact = product(alloc, self.inputs)?;
        self.converted(alloc, exact, u32::from(frac), range)
    }

    /// The first input where the second one passes a criterion, else the third one, each converted.
    fn switched(
        &self,
        alloc: Global,
        criterion: Criterion,
        threshold: i64,
        fracs: [u8; 2],
    ) -> Result<Expr, Memory>
        requires threshold_fits { unsigned_abs threshold < 2 ^ 63 }
        requires first_unit { get_or fracs 0 0 ≤ 31 }
        requires third_unit { get_or fracs 1 0 ≤ 31 }
        ensures { let row = self.now in IfOk result (λ e. expr_tree e ≡ code.either_code
            (option_and_then (code.passes_all criterion threshold)
            (numbers.input_range row.types.now 1))
            (code.passes_code criterion (code.input_code row.inputs.now 1) threshold)
            (code.converted_input row.inputs.now row.types.now 0 (get_or fracs 0 0) row.to row.how)
            (code.converted_input row.inputs.now row.types.now 2 (get_or fracs 1 0)
            row.to row.how)) }
    {
        let first = passes_all(criterion, threshold, input_range(self.types, 1));
        let test = passes(alloc, criterion, input(self.inputs, 1), threshold)?;
        let test = Box::new(alloc, test)?;
        self.converted_either(alloc, first, test, fracs)
    }

    /// The first input, of a gain, times `m` and of `frac` fraction bits then, converted.
    fn converted_gain(&self, alloc: Global, m: i64, frac: u8) -> Result<Expr, Memory>
        requires factor_fits { unsigned_abs m < 2 ^ 63 }
        requires unit { frac - self.now.to.frac ≤ 62 }
        ensures { let row = self.now in IfOk result (λ e. expr_tree e ≡ code.converted
            (tree.binary Mul (code.input_code row.inputs.now 0) (code.written m)) frac
            (numbers.gain_range m row.types.now) row.to row.how) }
    {
        let factor = written(alloc, m)?;
        let exact = binary(alloc, BinOp::Mul, input(self.inputs, 0), factor)?;
        self.converted(alloc, exact, u32::from(frac), gain_range(m, self.types))
    }
}

/// 1 where a logical operator over inputs holds, else 0.
fn logic_value(alloc: Global, op: Logic, inputs: &[Leaf]) -> Result<Expr, Memory>
    ensures { IfOk result
        (λ e. expr_tree e ≡ code.truth (code.logic_code op (code.truths inputs.now))) }
{
    truth(alloc, logic(alloc, op, inputs)?)
}

/// The expression for the value of a row: what the row computes of its inputs and its memory, in C, with two calls of
/// pure functions at most. `types` are those of the inputs in their order, as far as they are known: where they show that the
/// row's type holds each exact result, nothing brings this into the type, and where they show which input a switch passes,
/// nothing is asked. `memory` is the expression for what a delay remembers; any other row drops it.
///
/// Fails only when memory runs out.
pub fn value_code(
    alloc: Global,
    op: &Op,
    inputs: &[Leaf],
    types: &[FixType],
    memory: Expr,
) -> Result<Expr, Memory>
    requires { IsRowOp op.now }
    ensures { IfOk result
        (λ e. expr_tree e ≡ code.rhs_code op.now inputs.now types.now (expr_tree memory)) }
{
    row_ops_are_writable();
    match *op {
        Op::Copy => Ok(input(inputs, 0)),
        Op::Value(v) => written(alloc, v),
        Op::Delay(_) | Op::Line { .. } => Ok(memory),
        Op::Gain { m, frac, to, how } => {
            Conversion {
                inputs,
                types,
                to,
                how,
            }
            .converted_gain(alloc, m, frac)
        }
        Op::Sum {
            count,
            minus,
            fracs,
            to,
            how,
        } => {
            let fracs = &fracs[..usize::from(count)];
            Conversion {
                inputs,
                types,
                to,
                how,
            }
            .converted_sum(alloc, minus, fracs)
        }
        Op::Product {
            count,
            frac,
            to,
            how,
        } => Conversion {
            inputs,
            types,
            to,
            how,
        }
        .converted_product(alloc, count, frac),
        Op::Switch {
            criterion,
            threshold,
            fracs,
            to,
            how,
        } => Conversion {
            inputs,
            types,
            to,
            how,
        }
        .switched(alloc, criterion, threshold, fracs),
        Op::Relational { compare, fracs } => comparison(alloc, compare, &fracs, inputs),
        Op::Logic { op, .. } => logic_value(alloc, op, inputs),
        Op::Convert { frac, to, how } => {
            Conversion {
                inputs,
                types,
                to,
                how,
            }
            .converted_input(alloc, 0, frac)
        }
        Op::Nothing => Ok(Expr::Literal(0)),
    }
}

ghost use Rattle.std.specs.Prelude.{◌≡◌, ◌≤◌, ◌-◌, IfOk};
ghost use Rattle.c_syntax.specs.Plain.{expr_tree};
ghost use Rattle.emit_prelude.specs.Rules.{rounding_position};
ghost use Rattle.emit_row_code.specs.RowCode as code;

use crate::expression::{binary, call, power, written};
use crate::ranges::{Range, surely_holds};
use base_core::Memory;
use base_fixed_point::{FixType, Over, Round, greatest, least};
use c_syntax::{BinOp, Expr, Leaf};
use diagram_blocks::How;
use std::alloc::Global;

/// The positions of `clamp` and `wrap` among the pure functions; those that round are before them.
const CLAMP: u32 = 6;

const WRAP: u32 = 7;

/// The position of the pure function of a rounding rule.
fn rounding(round: Round) -> u32
    ensures { result ≡ rounding_position round }
{
    match round {
        Round::Floor => 0,
        Round::Ceiling => 1,
        Round::Zero => 2,
        Round::Nearest => 3,
        Round::Round => 4,
        Round::Convergent => 5,
    }
}

/// An expression of `frac` fraction bits in the finer unit of 2^-common.
pub(crate) fn aligned(alloc: Global, e: Expr, frac: u32, common: u32) -> Result<Expr, Memory>
    requires finer { frac ≤ common }
    requires fits { common - frac ≤ 62 }
    ensures { IfOk result (λ a. expr_tree a ≡ code.aligned (expr_tree e) frac common) }
{
    if frac == common {
        return Ok(e);
    }
    binary(alloc, BinOp::Mul, e, power(common - frac))
}

/// An expression of `frac` fraction bits as a whole number of a type's units.
fn rounded(alloc: Global, e: Expr, frac: u32, to: FixType, how: How) -> Result<Expr, Memory>
    requires { frac - to.frac ≤ 62 }
    ensures { IfOk result (λ r. expr_tree r ≡ code.rounded_code (expr_tree e) frac to.frac how) }
{
    let unit = u32::from(to.frac);
    if frac <= unit {
        return aligned(alloc, e, frac, unit);
    }
    let mut values = Vec::new(alloc);
    values.push(e)?;
    values.push(power(frac - unit))?;
    Ok(call(rounding(how.round), values))
}

/// A whole number brought into a type.
fn cast(alloc: Global, over: Over, to: FixType, e: Expr) -> Result<Expr, Memory>
    ensures { IfOk result (λ c. expr_tree c ≡ code.cast over to (expr_tree e)) }
{
    let mut values = Vec::new(alloc);
    values.push(e)?;
    values.push(written(alloc, least(to))?)?;
    match over {
        Over::Saturate => {
            values.push(written(alloc, greatest(to))?)?;
            Ok(call(CLAMP, values))
        }
        Over::Wrap => {
            values.push(power(u32::from(to.bits)))?;
            Ok(call(WRAP, values))
        }
    }
}

/// What a row computes of its inputs is brought into a type: where these are read, and their types as far as they are known,
/// in their order.
#[derive(Clone, Copy, Drop)]
pub(crate) struct Conversion<'a> {
    pub(crate) inputs: &'a [Leaf],
    pub(crate) types: &'a [FixType],
    pub(crate) to: FixType,
    pub(crate) how: How,
}

impl<'a> Conversion<'a> {
    /// An expression of `frac` fraction bits, for a number of a range, converted: by a call where its unit is finer than the
    /// type's, and another where the type may not hold the number.
    pub(crate) fn converted(
        &self,
        alloc: Global,
        e: Expr,
        frac: u32,
        range: Option<Range>,
    ) -> Result<Expr, Memory>
        requires { frac - self.now.to.frac ≤ 62 }
        ensures { IfOk result (λ c. expr_tree c
            ≡ code.converted (expr_tree e) frac range self.now.to self.now.how) }
    {
        let whole = rounded(alloc, e, frac, self.to, self.how)?;
        if surely_holds(self.to, frac, range) {
            Ok(whole)
        } else {
            cast(alloc, self.how.over, self.to, whole)
        }
    }
}

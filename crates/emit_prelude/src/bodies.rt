ghost use Rattle.std.specs.Prelude.{◌≡◌, IfOk};
ghost use Rattle.c_syntax.specs.Plain.{expr_tree, cond_tree};
ghost use Rattle.emit_prelude.specs.Bodies as body;

use crate::expression::{binary, both, compare, either, literal, negative, param, pick};
use base_core::{Compare, Memory};
use c_syntax::{BinOp, Cond, Expr};
use std::alloc::Global;

/// The number v, the divisor d of a rounding, and the further parameters of the others.
const V: u32 = 0;

const D: u32 = 1;

const LO: u32 = 1;

const HI: u32 = 2;

const N: u32 = 2;

/// v / d.
fn quotient(alloc: Global) -> Result<Box<Expr>, Memory>
    ensures { IfOk result (λ e. expr_tree e.value ≡ body.quotient) }
{
    binary(alloc, BinOp::Div, param(alloc, V)?, param(alloc, D)?)
}

/// v % d.
fn rest(alloc: Global) -> Result<Box<Expr>, Memory>
    ensures { IfOk result (λ e. expr_tree e.value ≡ body.rest) }
{
    binary(alloc, BinOp::Rem, param(alloc, V)?, param(alloc, D)?)
}

/// d / 2.
fn half(alloc: Global) -> Result<Box<Expr>, Memory>
    ensures { IfOk result (λ e. expr_tree e.value ≡ body.half) }
{
    binary(alloc, BinOp::Div, param(alloc, D)?, literal(alloc, 2)?)
}

/// -(d / 2).
fn minus_half(alloc: Global) -> Result<Box<Expr>, Memory>
    ensures { IfOk result (λ e. expr_tree e.value ≡ body.minus_half) }
{
    negative(alloc, half(alloc)?)
}

/// v / d + 1.
fn one_above(alloc: Global) -> Result<Box<Expr>, Memory>
    ensures { IfOk result (λ e. expr_tree e.value ≡ body.one_above) }
{
    binary(alloc, BinOp::Add, quotient(alloc)?, literal(alloc, 1)?)
}

/// v / d - 1.
fn one_below(alloc: Global) -> Result<Box<Expr>, Memory>
    ensures { IfOk result (λ e. expr_tree e.value ≡ body.one_below) }
{
    binary(alloc, BinOp::Sub, quotient(alloc)?, literal(alloc, 1)?)
}

pub(crate) fn floor_body(alloc: Global) -> Result<Box<Expr>, Memory>
    ensures { IfOk result (λ e. expr_tree e.value ≡ body.floor_body) }
{
    let is_negative = compare(alloc, Compare::Lt, rest(alloc)?, literal(alloc, 0)?)?;
    pick(alloc, is_negative, one_below(alloc)?, quotient(alloc)?)
}

pub(crate) fn ceiling_body(alloc: Global) -> Result<Box<Expr>, Memory>
    ensures { IfOk result (λ e. expr_tree e.value ≡ body.ceiling_body) }
{
    let is_positive = compare(alloc, Compare::Gt, rest(alloc)?, literal(alloc, 0)?)?;
    pick(alloc, is_positive, one_above(alloc)?, quotient(alloc)?)
}

pub(crate) fn zero_body(alloc: Global) -> Result<Box<Expr>, Memory>
    ensures { IfOk result (λ e. expr_tree e.value ≡ body.zero_body) }
{
    quotient(alloc)
}

/// One above the quotient where `up` holds, else one below it where `down` holds, else the quotient.
fn nearer(alloc: Global, up: Box<Cond>, down: Box<Cond>) -> Result<Box<Expr>, Memory>
    ensures { IfOk result
        (λ e. expr_tree e.value ≡ body.nearer (cond_tree up.value) (cond_tree down.value)) }
{
    let below = pick(alloc, down, one_below(alloc)?, quotient(alloc)?)?;
    pick(alloc, up, one_above(alloc)?, below)
}

pub(crate) fn nearest_body(alloc: Global) -> Result<Box<Expr>, Memory>
    ensures { IfOk result (λ e. expr_tree e.value ≡ body.nearest_body) }
{
    let up = compare(alloc, Compare::Ge, rest(alloc)?, half(alloc)?)?;
    let down = compare(alloc, Compare::Lt, rest(alloc)?, minus_half(alloc)?)?;
    nearer(alloc, up, down)
}

pub(crate) fn away_body(alloc: Global) -> Result<Box<Expr>, Memory>
    ensures { IfOk result (λ e. expr_tree e.value ≡ body.away_body) }
{
    let up = compare(alloc, Compare::Ge, rest(alloc)?, half(alloc)?)?;
    let down = compare(alloc, Compare::Le, rest(alloc)?, minus_half(alloc)?)?;
    nearer(alloc, up, down)
}

/// The quotient is odd.
fn is_odd(alloc: Global) -> Result<Box<Cond>, Memory>
    ensures { IfOk result (λ c. cond_tree c.value ≡ body.is_odd) }
{
    let parity = binary(alloc, BinOp::Rem, quotient(alloc)?, literal(alloc, 2)?)?;
    compare(alloc, Compare::Ne, parity, literal(alloc, 0)?)
}

/// More than half above the quotient, or half above an odd one.
fn nearer_above(alloc: Global) -> Result<Box<Cond>, Memory>
    ensures { IfOk result (λ c. cond_tree c.value ≡ body.nearer_above) }
{
    let more = compare(alloc, Compare::Gt, rest(alloc)?, half(alloc)?)?;
    let tie = compare(alloc, Compare::Eq, rest(alloc)?, half(alloc)?)?;
    either(alloc, more, both(alloc, tie, is_odd(alloc)?)?)
}

/// More than half below the quotient, or half below an odd one.
fn nearer_below(alloc: Global) -> Result<Box<Cond>, Memory>
    ensures { IfOk result (λ c. cond_tree c.value ≡ body.nearer_below) }
{
    let more = compare(alloc, Compare::Lt, rest(alloc)?, minus_half(alloc)?)?;
    let tie = compare(alloc, Compare::Eq, rest(alloc)?, minus_half(alloc)?)?;
    either(alloc, more, both(alloc, tie, is_odd(alloc)?)?)
}

pub(crate) fn even_body(alloc: Global) -> Result<Box<Expr>, Memory>
    ensures { IfOk result (λ e. expr_tree e.value ≡ body.even_body) }
{
    nearer(alloc, nearer_above(alloc)?, nearer_below(alloc)?)
}

pub(crate) fn clamp_body(alloc: Global) -> Result<Box<Expr>, Memory>
    ensures { IfOk result (λ e. expr_tree e.value ≡ body.clamp_body) }
{
    let is_below = compare(alloc, Compare::Lt, param(alloc, V)?, param(alloc, LO)?)?;
    let is_above = compare(alloc, Compare::Gt, param(alloc, V)?, param(alloc, HI)?)?;
    let at_most = pick(alloc, is_above, param(alloc, HI)?, param(alloc, V)?)?;
    pick(alloc, is_below, param(alloc, LO)?, at_most)
}

/// (v - lo) % n.
fn offset_rest(alloc: Global) -> Result<Box<Expr>, Memory>
    ensures { IfOk result (λ e. expr_tree e.value ≡ body.offset_rest) }
{
    let offset = binary(alloc, BinOp::Sub, param(alloc, V)?, param(alloc, LO)?)?;
    binary(alloc, BinOp::Rem, offset, param(alloc, N)?)
}

pub(crate) fn wrap_body(alloc: Global) -> Result<Box<Expr>, Memory>
    ensures { IfOk result (λ e. expr_tree e.value ≡ body.wrap_body) }
{
    let is_negative = compare(alloc, Compare::Lt, offset_rest(alloc)?, literal(alloc, 0)?)?;
    let raised = binary(alloc, BinOp::Add, offset_rest(alloc)?, param(alloc, N)?)?;
    let from_below = binary(alloc, BinOp::Add, raised, param(alloc, LO)?)?;
    let from_above = binary(alloc, BinOp::Add, offset_rest(alloc)?, param(alloc, LO)?)?;
    pick(alloc, is_negative, from_below, from_above)
}

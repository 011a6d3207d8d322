ghost use Rattle.std.specs.Prelude.{◌≡◌, IfOk};
ghost use Rattle.std.specs.Option.{option_map};
ghost use Rattle.c_syntax.specs.Plain.{expr_tree, cond_tree};
ghost use Rattle.emit_row_code.specs.TestCode as code;

use crate::expression::{both, choice, either, negated};
use crate::leaves::ControlLeaves;
use base_core::{Compare, Control, Edge, Memory};
use c_syntax::{BinOp, Cond, Expr, Leaf};
use diagram_meaning::Time;
use std::alloc::Global;

/// What a trigger remembers of its level.
const LOW: u32 = 1;

const HIGH: u32 = 2;

/// A control is above 0.
fn is_high(control: Leaf) -> Cond
    ensures { cond_tree result ≡ code.is_high_code control }
{
    Cond::Compare(Compare::Gt, Expr::Read(control), Expr::Literal(0))
}

/// The trigger had this level.
fn was(leaves: ControlLeaves, level: u32) -> Cond
    ensures { cond_tree result ≡ code.was leaves level }
{
    Cond::Compare(
        Compare::Eq,
        Expr::Read(leaves.remembers),
        Expr::Literal(i64::from(level)),
    )
}

/// The trigger was low and is high.
fn rises(alloc: Global, leaves: ControlLeaves) -> Result<Cond, Memory>
    ensures { IfOk result (λ c. cond_tree c ≡ code.rises leaves) }
{
    both(alloc, was(leaves, LOW), is_high(leaves.trigger))
}

/// The trigger was high and isn't.
fn falls(alloc: Global, leaves: ControlLeaves) -> Result<Cond, Memory>
    ensures { IfOk result (λ c. cond_tree c ≡ code.falls leaves) }
{
    let is_low = negated(alloc, is_high(leaves.trigger))?;
    both(alloc, was(leaves, HIGH), is_low)
}

/// An event holds.
fn event(alloc: Global, edge: Edge, leaves: ControlLeaves) -> Result<Cond, Memory>
    ensures { IfOk result (λ c. cond_tree c ≡ code.event_test edge leaves) }
{
    match edge {
        Edge::Rising => rises(alloc, leaves),
        Edge::Falling => falls(alloc, leaves),
        Edge::Either => either(alloc, rises(alloc, leaves)?, falls(alloc, leaves)?),
    }
}

/// The test that a system inside an active one is active; `None` always holds. The trigger counts only where it was low
/// before it rises, or high before it falls.
///
/// Fails only when memory runs out.
pub fn active_by(
    alloc: Global,
    control: Control,
    leaves: ControlLeaves,
) -> Result<Option<Cond>, Memory>
    ensures { IfOk result (λ test. option_map cond_tree test ≡ code.active_by control leaves) }
{
    match control {
        Control::Plain => Ok(None),
        Control::Enabled { .. } => Ok(Some(is_high(leaves.enable))),
        Control::Triggered(edge) => Ok(Some(event(alloc, edge, leaves)?)),
        Control::Both { edge, .. } => {
            let event = event(alloc, edge, leaves)?;
            Ok(Some(both(alloc, is_high(leaves.enable), event)?))
        }
    }
}

/// The test that the enable of a system inside an active one is low; `None` never holds.
///
/// Fails only when memory runs out.
pub fn disabled_by(
    alloc: Global,
    control: Control,
    leaves: ControlLeaves,
) -> Result<Option<Cond>, Memory>
    ensures { IfOk result (λ test. option_map cond_tree test ≡ code.disabled_by control leaves) }
{
    match control {
        Control::Plain | Control::Triggered(_) => Ok(None),
        Control::Enabled { .. } | Control::Both { .. } => {
            Ok(Some(negated(alloc, is_high(leaves.enable))?))
        }
    }
}

/// The test that a system inside an active one is off: its enable is low, and it loses its states then; `None` never
/// holds.
///
/// Fails only when memory runs out.
pub fn off_by(
    alloc: Global,
    control: Control,
    leaves: ControlLeaves,
) -> Result<Option<Cond>, Memory>
    ensures { IfOk result (λ test. option_map cond_tree test ≡ code.off_by control leaves) }
{
    match control {
        Control::Enabled { reset: true } | Control::Both { reset: true, .. } => {
            disabled_by(alloc, control, leaves)
        }
        Control::Plain
        | Control::Enabled { reset: false }
        | Control::Triggered(_)
        | Control::Both { reset: false, .. } => Ok(None),
    }
}

/// The test that the tick read here is one of the sample time; `None` always holds.
///
/// Fails only when memory runs out.
pub fn hit_test(alloc: Global, time: Time, now: Leaf) -> Result<Option<Cond>, Memory>
    ensures { IfOk result (λ test. option_map cond_tree test ≡ code.hit_test time now) }
{
    if time.period == 1 {
        return Ok(None);
    }
    let now = Box::new(alloc, Expr::Read(now))?;
    let period = Box::new(alloc, Expr::Literal(i64::from(time.period)))?;
    Ok(Some(Cond::Compare(
        Compare::Eq,
        Expr::Binary(BinOp::Rem, now, period),
        Expr::Literal(i64::from(time.offset)),
    )))
}

/// Both of two tests, in one; `None` always holds.
///
/// Fails only when memory runs out.
pub fn both_tests(
    alloc: Global,
    first: Option<Cond>,
    second: Option<Cond>,
) -> Result<Option<Cond>, Memory>
    ensures { IfOk result (λ test. option_map cond_tree test
        ≡ code.both_tests (option_map cond_tree first) (option_map cond_tree second)) }
{
    match (first, second) {
        (None, second) => Ok(second),
        (first, None) => Ok(first),
        (Some(first), Some(second)) => Ok(Some(both(alloc, first, second)?)),
    }
}

/// What a trigger remembers of its level in an active system: 1 low, 2 high.
///
/// Fails only when memory runs out.
pub fn level_code(alloc: Global, trigger: Leaf) -> Result<Expr, Memory>
    ensures { IfOk result (λ e. expr_tree e ≡ code.level_code trigger) }
{
    choice(
        alloc,
        is_high(trigger),
        Expr::Literal(i64::from(HIGH)),
        Expr::Literal(i64::from(LOW)),
    )
}

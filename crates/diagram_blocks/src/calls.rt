ghost use Rattle.std.specs.Prelude.{◌≡◌};
ghost use Rattle.diagram_blocks.specs.Meaning as meaning;
ghost use Rattle.diagram_blocks.specs.Value as value;

use crate::kind::Kind;
use crate::op::Op;

/// The data inputs of a block that is no subsystem.
pub fn ports(k: &Kind) -> u32
    ensures { result ≡ meaning.ports k.now }
{
    match k {
        Kind::Outport { .. }
        | Kind::Terminator
        | Kind::Gain { .. }
        | Kind::UnitDelay { .. }
        | Kind::Delay { .. }
        | Kind::ZeroOrderHold
        | Kind::Convert(_)
        | Kind::RateTransition { .. } => 1,
        Kind::Relational(_) => 2,
        Kind::Switch { .. } => 3,
        Kind::Sum { count, .. } | Kind::Product { count, .. } | Kind::Logic { count, .. } => {
            *count as u32
        }
        _ => 0,
    }
}

/// Whether a row's value is made from the inputs of the same tick.
pub fn feeds_through(op: &Op) -> bool
    ensures { result ≡ value.feeds_through op.now }
{
    !matches!(op, Op::Delay(_) | Op::Line { .. })
}

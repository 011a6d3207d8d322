ghost use Rattle.std.specs.Prelude.{◌≡◌};
ghost use Rattle.diagram_times.specs.Bases.{IsCountable};
ghost use Rattle.diagram_times.specs.Bases as base_tick;

use crate::base::{BaseTick, numerator_over};
use base_core::Frac;

/// How many base ticks a fraction is.
pub(crate) fn ticks(base: BaseTick, fraction: Frac) -> u64
    requires { IsCountable base fraction }
    ensures { result ≡ base_tick.ticks_of base fraction }
{
    numerator_over(base.denominator, fraction) / base.numerator
}

ghost use Rattle.std.specs.Prelude.{◌≡◌};
ghost use Rattle.diagram_meaning.specs.SampleTimes as time;
ghost use Rattle.diagram_times.specs.Bases.{IsCounted, IsCountedText, IsTimeOf, ticks_of};

use crate::base::BaseTick;
use crate::ticks::ticks;
use base_core::{Frac, TimeText};
use diagram_meaning::Time;

/// The sample time that each tick is one of.
pub(crate) fn every_tick() -> Time
    ensures { result ≡ time.every_tick }
{
    Time {
        period: 1,
        offset: 0,
    }
}

/// The time that a text writes, in base ticks; none where it writes no period.
pub(crate) fn time_of(text: TimeText, base: BaseTick) -> Option<Time>
    requires { IsCountedText base text }
    ensures { IsTimeOf base text result }
{
    match text {
        TimeText::Inherit | TimeText::Constant => None,
        TimeText::Each { period, offset } => Some(counted(base, period, offset)),
    }
}

/// The time of this period and offset, in base ticks.
fn counted(base: BaseTick, period: Frac, offset: Frac) -> Time
    requires { IsCounted base period offset }
    ensures period { result.period ≡ ticks_of base period }
    ensures offset { result.offset ≡ ticks_of base offset }
{
    Time {
        period: ticks(base, period) as u32,
        offset: ticks(base, offset) as u32,
    }
}

/// The slower of the times before and after a rate transition.
pub(crate) fn slower(inside: Time, outside: Time) -> Time
    ensures { result ≡ time.slower inside outside }
{
    if outside.period < inside.period {
        inside
    } else {
        outside
    }
}

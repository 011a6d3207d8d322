ghost use Rattle.std.specs.Prelude.{◌≡◌, ◌↔◌, IsTrue};
ghost use Rattle.diagram_meaning.specs.SampleTimes.{Includes};
ghost use Rattle.diagram_times.specs.Hulls.{IsCommonPeriod, IsHull};

use base_core::gcd;
use diagram_meaning::Time;

/// Whether all ticks of the second time are ticks of the first.
pub(crate) fn includes(time: Time, other: Time) -> bool
    ensures { IsTrue result ↔ Includes time other }
{
    other.period % time.period == 0 && other.offset % time.period == time.offset
}

/// The smallest time that includes both.
pub(crate) fn hull(a: Time, b: Time) -> Time
    ensures { IsHull a b result }
{
    let period = common_period(a, b);
    Time {
        period,
        offset: a.offset % period,
    }
}

/// The greatest common divisor of both periods and of the distance of the offsets.
fn common_period(a: Time, b: Time) -> u32
    ensures { IsCommonPeriod a b result }
{
    let apart = a.offset.abs_diff(b.offset);
    let periods = gcd(u64::from(a.period), u64::from(b.period));
    gcd(periods, u64::from(apart)) as u32
}
